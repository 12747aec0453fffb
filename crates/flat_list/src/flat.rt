ghost use Rattle.std.specs.Prelude.{true, ℕ, ◌≡◌, ◌≢◌, ◌+◌, ◌<◌, ◌≤◌, ◌^◌, ◌&&◌, not, length, List, [], find, is_some, Some, IfOk, IfErr, IfSome, IfNone, OnErr};
ghost use Rattle.flat_list.specs.declared.socket.Socket.{Socket};
ghost use Rattle.flat_list.specs.Groups.{Group};
ghost use Rattle.flat_list.specs.Ports as ports_spec;
ghost use Rattle.flat_list.specs.Sections as sections_spec;
ghost use Rattle.flat_list.specs.Flat as flat_spec;
ghost use Rattle.flat_list.specs.Connect as connect_spec;
ghost use Rattle.flat_list.specs.Outcome as outcome_spec;
ghost use Rattle.flat_list.specs.Step as spec;
ghost use Rattle.flat_list.specs.Look as look_spec;
ghost use Rattle.flat_list.specs.Listed.{listed};

use crate::command::{Command, End, Label, Reply};
use crate::group::Group;
use crate::header::{First, Header};
use crate::owned::{Options, is_no_accept, is_no_ack, is_no_end, packet_of, source_of};
use crate::section::{Section, draw_word, give_label, moment_of, name_in, section_of, set_moment};
use crate::socket::{
    Socket, at_address, at_end, at_port, child_of, connected, connected_by_search, end_of, heir_of,
    listening, new_socket, request_of, waiting,
};
use crate::{group, ports, search};
use sock_card::{Card, Packet, State};
use socket_list::in_order;
use std::alloc::{AllocError, Global};
use std::marker::Model;

/// The plain engine: the header's values, one list of sockets, the groups of listeners, and what each
/// section keeps.
///
/// A section that has given no label and set no moment isn't kept. Sections share the sockets, and no
/// labels.
#[derive(Drop)]
pub struct Flat {
    header: Header,
    sockets: Vec<Socket>,
    groups: Vec<Group>,
    sections: Vec<Section>,
    alloc: Global,
}

impl Model for Flat {
    ghost use Rattle.flat_list.specs.Flat.{Flat as Kept};

    ghost Value = { Kept };

    ghost view = { λ f. record {
      header = f.header;
      sockets = f.sockets.items;
      groups = f.groups.items;
      sections = f.sections.items;
    } };
}

/// Where a search begins; where the header names no offset, a word is drawn for it.
fn draw_offset(header: &Header, section: u32, sections: &mut Vec<Section>) -> u16
    requires { sections_spec.labels_of section sections.old.items ≢ [] }
    ensures { (sockets : List Socket) (groups : List Group)
        → outcome_spec.draw (record {
          header = header.now;
          sockets = sockets;
          groups = groups;
          sections = sections.old.items;
        }) section header.now.offset
        ≡ record {
          offset = result;
          flat = record { header = header.now; sockets = sockets; groups = groups; sections = sections.new.items };
        } }
{
    let size = ports::size(&header.range);
    match header.offset {
        Some(offset) => (u32::from(offset) % size) as u16,
        None => (draw_word(sections, section) % size) as u16,
    }
}

impl Flat {
    /// No sockets yet, and no memory taken.
    pub fn new(alloc: Global, header: &Header) -> Self
        ensures { result ≡ flat_spec.new_flat header.now }
    {
        Flat {
            header: *header,
            sockets: Vec::new(alloc),
            groups: Vec::new(alloc),
            sections: Vec::new(alloc),
            alloc,
        }
    }

    /// The open socket that a label names in its section.
    fn open_socket(&self, section: u32, label: &Label) -> Option<Socket>
        ensures socket { result ≡ outcome_spec.open_socket self.now section label.now }
        ensures kept { IfSome result (λ socket. sections_spec.labels_of section self.now.sections ≢ []) }
    {
        match name_in(section, &self.sections, label) {
            None => None,
            Some(name) => search::open_named(name, &self.sockets),
        }
    }

    fn socket(&mut self, section: u32, label: &Label, options: Options) -> Result<Reply, AllocError>
        requires number { section ≤ 64 }
        requires room { length (sections_spec.labels_of section self.old.sections) + 1 < 2 ^ 56 }
        ensures step { IfOk result (λ reply. spec.socket self.old section label.now options
            ≡ record { flat = self.new; reply = reply }) }
        ensures err { OnErr result (self.new ≡ self.old) }
    {
        let label = *label;
        self.sockets.reserve(1)?;
        let name = give_label(self.alloc, &self.header, &mut self.sections, section, label)?;
        self.sockets.push(new_socket(name, options))?;
        Ok(Reply::Ok)
    }

    fn bind(&mut self, section: u32, label: &Label, end: End) -> Reply
        ensures { spec.bind self.old section (outcome_spec.open_socket self.old section label.now) end
            ≡ record { flat = self.new; reply = result } }
    {
        match self.open_socket(section, label) {
            None => Reply::Ebadf,
            Some(socket) => self.bind_socket(section, socket, end),
        }
    }

    fn listen(&mut self, section: u32, label: &Label) -> Result<Reply, AllocError>
        ensures step { IfOk result (λ reply. spec.listen self.old section
            (outcome_spec.open_socket self.old section label.now)
            ≡ record { flat = self.new; reply = reply }) }
        ensures err { OnErr result (self.new ≡ self.old) }
    {
        match self.open_socket(section, label) {
            None => Ok(Reply::Ebadf),
            Some(socket) => self.listen_socket(section, socket),
        }
    }

    /// Puts a socket in the place of the one of its name.
    fn put(&mut self, socket: Socket, reply: Reply) -> Reply
        ensures { outcome_spec.changed self.old socket reply
            ≡ record { flat = self.new; reply = result } }
    {
        search::put(socket, &mut self.sockets);
        reply
    }

    /// The section's moment.
    fn moment(&self, section: u32) -> u32
        ensures { result ≡ sections_spec.moment_of self.now.header section self.now.sections }
    {
        moment_of(section, &self.sections)
    }

    /// Where a search begins; where the header names no offset, a word is drawn for it.
    fn draw(&mut self, section: u32) -> u16
        requires { sections_spec.labels_of section self.old.sections ≢ [] }
        ensures { outcome_spec.draw self.old section self.old.header.offset
            ≡ record { offset = result; flat = self.new } }
    {
        draw_offset(&self.header, section, &mut self.sections)
    }

    /// Whether no other owner overlaps the socket at that address and port.
    fn suits_bind(&self, socket: Socket, addr: u32, port: u16) -> bool
        ensures { result ≡ spec.suits_bind self.now socket addr port }
    {
        !search::is_overlapped(&at_port(socket, addr, port).owner, &self.sockets)
    }

    /// Whether a search of `bind` at that address takes the port.
    fn can_bind_at(&self, socket: Socket, addr: u32, port: u16) -> bool
        ensures { result ≡ (not (ports_spec.is_reserved self.now.header.range port)
            && spec.suits_bind self.now socket addr port) }
    {
        !ports::is_reserved(&self.header.range, port) && self.suits_bind(socket, addr, port)
    }

    /// The first port of a search at that address at which no other owner overlaps.
    fn free_port(&self, socket: Socket, addr: u32, offset: u16) -> Option<u16>
        ensures { result ≡ find (spec.suits_bind self.now socket addr)
            (ports_spec.port_order self.now.header.range offset First.Odd) }
    {
        let range = &self.header.range;
        for number in 0..ports::count(range) {
            let port = ports::port_at(range, offset, First::Odd, number);
            if self.can_bind_at(socket, addr, port) {
                return Some(port);
            }
        }
        None
    }

    fn bind_socket(&mut self, section: u32, socket: Socket, end: End) -> Reply
        requires { sections_spec.labels_of section self.old.sections ≢ [] }
        ensures { spec.bind_socket self.old section socket socket.owner.state end
            ≡ record { flat = self.new; reply = result } }
    {
        if !matches!(socket.owner.state, State::Unbound) {
            return Reply::Einval;
        }
        if end.port == 0 {
            return self.bind_any(section, socket, end.addr);
        }
        let bound = at_end(socket, end);
        if search::is_refused(&bound.owner, &self.sockets) {
            return Reply::Eaddrinuse;
        }
        self.put(bound, Reply::Port(end.port))
    }

    fn bind_any(&mut self, section: u32, socket: Socket, addr: u32) -> Reply
        requires { sections_spec.labels_of section self.old.sections ≢ [] }
        ensures { spec.bind_any self.old section socket addr
            ≡ record { flat = self.new; reply = result } }
    {
        if socket.owner.noport {
            return self.put(at_address(socket, addr), Reply::Port(0));
        }
        self.bind_search(section, socket, addr)
    }

    fn bind_search(&mut self, section: u32, socket: Socket, addr: u32) -> Reply
        requires { sections_spec.labels_of section self.old.sections ≢ [] }
        ensures { spec.bind_search self.old section socket addr
            ≡ record { flat = self.new; reply = result } }
    {
        let offset = self.draw(section);
        match self.free_port(socket, addr, offset) {
            None => Reply::Eaddrinuse,
            Some(port) => self.put(at_port(socket, addr, port), Reply::Port(port)),
        }
    }

    /// Whether a slot is free.
    fn has_slot(&self) -> bool
        ensures { result ≡ outcome_spec.has_slot self.now }
    {
        search::slots_used(&self.sockets) < self.header.shape.slots as usize
    }

    /// The reply where no slot is free.
    fn no_slot(&self) -> Reply
        ensures { outcome_spec.no_slot self.now ≡ record { flat = self.now; reply = result } }
    {
        Reply::Enfile {
            owned: self.header.shape.slots,
            held: 0,
        }
    }

    /// Why a socket that has a port can't listen, if so.
    fn listen_refusal(&self, socket: &Socket) -> Option<Reply>
        ensures refusal { IfSome result (λ reply. spec.listen_bound self.now socket.now
            ≡ outcome_spec.unchanged self.now reply) }
        ensures entered { IfNone result (is_some (spec.groups_with self.now socket.now) ≡ true) }
        ensures listens { IfNone result ((groups : List Group) → spec.groups_with self.now socket.now ≡ Some groups
            → spec.listen_bound self.now socket.now ≡ spec.listens_in self.now socket.now groups) }
    {
        if search::is_refused(&socket.owner, &self.sockets) {
            return Some(Reply::Eaddrinuse);
        }
        if !group::can_enter(self.header.shape.bind, socket, &self.sockets, &self.groups) {
            return Some(Reply::Emfile);
        }
        if !self.has_slot() {
            return Some(self.no_slot());
        }
        None
    }

    fn listen_bound(&mut self, socket: Socket) -> Result<Reply, AllocError>
        ensures step { IfOk result (λ reply. spec.listen_bound self.old socket
            ≡ record { flat = self.new; reply = reply }) }
        ensures err { OnErr result (self.new ≡ self.old) }
    {
        self.groups.reserve(1)?;
        if let Some(refusal) = self.listen_refusal(&socket) {
            return Ok(refusal);
        }
        group::enter(
            self.header.shape.bind,
            &socket,
            &self.sockets,
            &mut self.groups,
        );
        search::put(listening(socket), &mut self.sockets);
        Ok(Reply::Port(socket.owner.port))
    }

    fn listen_unbound(&mut self, section: u32, socket: Socket) -> Result<Reply, AllocError>
        requires { sections_spec.labels_of section self.old.sections ≢ [] }
        ensures step { IfOk result (λ reply. spec.listen_unbound self.old section socket
            ≡ record { flat = self.new; reply = reply }) }
        ensures err { OnErr result (self.new ≡ self.old) }
    {
        self.groups.reserve(1)?;
        let offset = draw_offset(&self.header, section, &mut self.sections);
        let addr = socket.owner.addr;
        let Some(port) = self.free_port(socket, addr, offset) else {
            return Ok(Reply::Eaddrinuse);
        };
        let bound = at_port(socket, addr, port);
        if let Some(refusal) = self.listen_refusal(&bound) {
            return Ok(refusal);
        }
        group::enter(
            self.header.shape.bind,
            &bound,
            &self.sockets,
            &mut self.groups,
        );
        search::put(listening(bound), &mut self.sockets);
        Ok(Reply::Port(port))
    }

    fn listen_socket(&mut self, section: u32, socket: Socket) -> Result<Reply, AllocError>
        requires { sections_spec.labels_of section self.old.sections ≢ [] }
        ensures step { IfOk result (λ reply. spec.listen_socket self.old section socket socket.owner.state
            ≡ record { flat = self.new; reply = reply }) }
        ensures err { OnErr result (self.new ≡ self.old) }
    {
        match socket.owner.state {
            State::Unbound => self.listen_unbound(section, socket),
            State::Bound => self.listen_bound(socket),
            State::Listening => Ok(Reply::Port(socket.owner.port)),
            _ => Ok(Reply::Einval),
        }
    }

    fn connect(&mut self, section: u32, label: &Label, from: Option<u32>, to: End) -> Reply
        ensures { connect_spec.connect self.old section (outcome_spec.open_socket self.old section label.now) from to
            ≡ record { flat = self.new; reply = result } }
    {
        match self.open_socket(section, label) {
            None => Reply::Ebadf,
            Some(socket) => self.connect_socket(section, socket, from, to),
        }
    }

    fn connect_socket(&mut self, section: u32, socket: Socket, from: Option<u32>, to: End) -> Reply
        requires { sections_spec.labels_of section self.old.sections ≢ [] }
        ensures { connect_spec.connect_socket self.old section socket socket.owner.state from to
            ≡ record { flat = self.new; reply = result } }
    {
        match socket.owner.state {
            State::Bound => self.connect_bound(section, socket, from, to),
            State::Unbound => self.connect_unbound(section, socket, from, to),
            State::Request => Reply::Einval,
            _ => Reply::Eisconn,
        }
    }

    /// Whether the socket can't have its four-tuple at the section's moment.
    fn is_taken_in(&self, section: u32, new: &Socket) -> bool
        ensures { result ≡ connect_spec.is_taken_in self.now section new.now }
    {
        let moment = self.moment(section);
        search::is_taken(self.header.twreuse, moment, &new.owner, &self.sockets)
    }

    fn connect_bound(&mut self, section: u32, socket: Socket, from: Option<u32>, to: End) -> Reply
        ensures { connect_spec.connect_bound self.old section socket from to
            ≡ record { flat = self.new; reply = result } }
    {
        if is_no_end(to) {
            return Reply::Einval;
        }
        let Some(source) = source_of(socket.owner.addr, from) else {
            return Reply::Einval;
        };
        let new = connected(socket, source, to);
        if self.is_taken_in(section, &new) {
            return Reply::Eaddrnotavail;
        }
        self.connect_as(new)
    }

    /// Whether the port's owners in the socket's namespace all had it chosen by `connect`,
    /// and the socket can have its four-tuple.
    fn suits_connect(&self, section: u32, socket: Socket, source: u32, to: End, port: u16) -> bool
        ensures { result ≡ connect_spec.suits_connect self.now section socket source to port }
    {
        let new = connected_by_search(socket, source, to, port);
        !search::is_claimed(port, socket.owner.net, &self.sockets)
            && !self.is_taken_in(section, &new)
    }

    /// Whether a search of `connect` takes the port.
    fn can_connect_at(&self, section: u32, socket: Socket, source: u32, to: End, port: u16) -> bool
        ensures { result ≡ (not (ports_spec.is_reserved self.now.header.range port)
            && connect_spec.suits_connect self.now section socket source to port) }
    {
        !ports::is_reserved(&self.header.range, port)
            && self.suits_connect(section, socket, source, to, port)
    }

    /// The first port of a search from which the socket can be connected.
    fn shared_port(
        &self,
        section: u32,
        socket: Socket,
        source: u32,
        to: End,
        offset: u16,
    ) -> Option<u16>
        ensures { result ≡ find (connect_spec.suits_connect self.now section socket source to)
            (ports_spec.port_order self.now.header.range offset First.Even) }
    {
        let range = &self.header.range;
        for number in 0..ports::count(range) {
            let port = ports::port_at(range, offset, First::Even, number);
            if self.can_connect_at(section, socket, source, to, port) {
                return Some(port);
            }
        }
        None
    }

    fn connect_unbound(&mut self, section: u32, socket: Socket, from: Option<u32>, to: End) -> Reply
        requires { sections_spec.labels_of section self.old.sections ≢ [] }
        ensures { connect_spec.connect_unbound self.old section socket from to
            ≡ record { flat = self.new; reply = result } }
    {
        if is_no_end(to) {
            return Reply::Einval;
        }
        let Some(source) = source_of(socket.owner.addr, from) else {
            return Reply::Einval;
        };
        let offset = self.draw(section);
        match self.shared_port(section, socket, source, to, offset) {
            None => Reply::Eaddrnotavail,
            Some(port) => self.connect_as(connected_by_search(socket, source, to, port)),
        }
    }

    fn connect_as(&mut self, new: Socket) -> Reply
        ensures { connect_spec.connect_as self.old new
            ≡ record { flat = self.new; reply = result } }
    {
        if !self.has_slot() {
            return self.no_slot();
        }
        search::remove_waiting(&new.owner, &mut self.sockets);
        self.put(new, Reply::End(end_of(&new)))
    }

    /// Why a newcomer of a listener's can't come, if so: its four-tuple is another's, or no slot is free.
    fn refusal_of(&self, new: &Socket) -> Option<Reply>
        ensures refusal { IfSome result (λ reply. connect_spec.accept_as self.now new.now
            ≡ outcome_spec.unchanged self.now reply) }
        ensures comes { IfNone result (connect_spec.accept_as self.now new.now
            ≡ outcome_spec.added (connect_spec.replacing self.now new.now.owner) new.now Reply.Ok) }
    {
        if search::has_twin(&new.owner, &self.sockets) {
            return Some(Reply::Eaddrnotavail);
        }
        if !self.has_slot() {
            return Some(self.no_slot());
        }
        None
    }

    /// The child that a listener accepts, or the refusal.
    fn child(
        &self,
        listener: Option<Socket>,
        name: u64,
        from: End,
        at: End,
    ) -> Result<Socket, Reply>
        ensures child { IfOk result (λ child. connect_spec.accept self.now name listener from at
            ≡ outcome_spec.added (connect_spec.replacing self.now child.owner) child Reply.Ok) }
        ensures refusal { IfErr result (λ reply. connect_spec.accept self.now name listener from at
            ≡ outcome_spec.unchanged self.now reply) }
    {
        let Some(listener) = listener else {
            return Err(Reply::Ebadf);
        };
        if is_no_accept(&listener.owner, from, at) {
            return Err(Reply::Einval);
        }
        let child = child_of(listener, name, from, at);
        match self.refusal_of(&child) {
            Some(refusal) => Err(refusal),
            None => Ok(child),
        }
    }

    fn accept(
        &mut self,
        section: u32,
        listener: &Label,
        label: &Label,
        from: End,
        at: End,
    ) -> Result<Reply, AllocError>
        requires number { section ≤ 64 }
        requires room { length (sections_spec.labels_of section self.old.sections) + 1 < 2 ^ 56 }
        ensures step { IfOk result (λ reply. connect_spec.accept
            (outcome_spec.with_new_label self.old section label.now)
            (sections_spec.next_name section self.old.sections)
            (outcome_spec.open_socket self.old section listener.now) from at
            ≡ record { flat = self.new; reply = reply }) }
        ensures err { OnErr result (self.new ≡ self.old) }
    {
        let label = *label;
        self.sockets.reserve(1)?;
        let listener = self.open_socket(section, listener);
        let name = give_label(self.alloc, &self.header, &mut self.sections, section, label)?;
        match self.child(listener, name, from, at) {
            Err(refusal) => Ok(refusal),
            Ok(child) => {
                search::remove_waiting(&child.owner, &mut self.sockets);
                self.sockets.push(child)?;
                Ok(Reply::Ok)
            }
        }
    }

    /// The request that a listener's handshake begins with, or the refusal.
    fn request(
        &self,
        listener: Option<Socket>,
        name: u64,
        from: End,
        at: End,
    ) -> Result<Socket, Reply>
        ensures request { IfOk result (λ request. connect_spec.syn self.now name listener from at
            ≡ outcome_spec.added (connect_spec.replacing self.now request.owner) request Reply.Ok) }
        ensures refusal { IfErr result (λ reply. connect_spec.syn self.now name listener from at
            ≡ outcome_spec.unchanged self.now reply) }
    {
        let Some(listener) = listener else {
            return Err(Reply::Ebadf);
        };
        if is_no_accept(&listener.owner, from, at) {
            return Err(Reply::Einval);
        }
        let request = request_of(listener, name, from, at);
        match self.refusal_of(&request) {
            Some(refusal) => Err(refusal),
            None => Ok(request),
        }
    }

    fn syn(
        &mut self,
        section: u32,
        listener: &Label,
        label: &Label,
        from: End,
        at: End,
    ) -> Result<Reply, AllocError>
        requires number { section ≤ 64 }
        requires room { length (sections_spec.labels_of section self.old.sections) + 1 < 2 ^ 56 }
        ensures step { IfOk result (λ reply. connect_spec.syn (outcome_spec.with_new_label self.old section label.now)
            (sections_spec.next_name section self.old.sections)
            (outcome_spec.open_socket self.old section listener.now) from at
            ≡ record { flat = self.new; reply = reply }) }
        ensures err { OnErr result (self.new ≡ self.old) }
    {
        let label = *label;
        self.sockets.reserve(1)?;
        let listener = self.open_socket(section, listener);
        let name = give_label(self.alloc, &self.header, &mut self.sections, section, label)?;
        match self.request(listener, name, from, at) {
            Err(refusal) => Ok(refusal),
            Ok(request) => {
                search::remove_waiting(&request.owner, &mut self.sockets);
                self.sockets.push(request)?;
                Ok(Reply::Ok)
            }
        }
    }

    /// The child that a request's listener accepts when the handshake is over, or the refusal.
    fn heir(&self, section: u32, request: &Socket, name: u64) -> Result<Socket, Reply>
        ensures child { IfOk result (λ child.
            connect_spec.ack_socket self.now section name request.now request.now.owner.state
            ≡ outcome_spec.added (connect_spec.without_request self.now request.now) child Reply.Ok) }
        ensures refusal { IfErr result
            (λ reply. connect_spec.ack_socket self.now section name request.now request.now.owner.state
            ≡ outcome_spec.unchanged self.now reply) }
    {
        if !matches!(request.owner.state, State::Request) {
            return Err(Reply::Einval);
        }
        let Some(listener) = search::open_in(section, request.owner.origin, &self.sockets) else {
            return Err(Reply::Einval);
        };
        if is_no_ack(&listener.owner, &request.owner) {
            return Err(Reply::Einval);
        }
        if !self.has_slot() {
            return Err(self.no_slot());
        }
        Ok(heir_of(listener, name, request))
    }

    fn ack(&mut self, section: u32, request: &Label, label: &Label) -> Result<Reply, AllocError>
        requires number { section ≤ 64 }
        requires room { length (sections_spec.labels_of section self.old.sections) + 1 < 2 ^ 56 }
        ensures step { IfOk result (λ reply. connect_spec.ack
            (outcome_spec.with_new_label self.old section label.now) section
            (sections_spec.next_name section self.old.sections) (outcome_spec.open_socket self.old section request.now)
            ≡ record { flat = self.new; reply = reply }) }
        ensures err { OnErr result (self.new ≡ self.old) }
    {
        let label = *label;
        self.sockets.reserve(1)?;
        let request = self.open_socket(section, request);
        let name = give_label(self.alloc, &self.header, &mut self.sections, section, label)?;
        let Some(request) = request else {
            return Ok(Reply::Ebadf);
        };
        match self.heir(section, &request, name) {
            Err(refusal) => Ok(refusal),
            Ok(child) => {
                search::remove(request.owner.name, &mut self.sockets);
                self.sockets.push(child)?;
                Ok(Reply::Ok)
            }
        }
    }

    /// A socket is gone, and from its group too.
    fn remove(&mut self, socket: &Socket, reply: Reply) -> Reply
        ensures { outcome_spec.removed self.old socket.now reply
            ≡ record { flat = self.new; reply = result } }
    {
        search::remove(socket.owner.name, &mut self.sockets);
        group::leave(socket.owner.name, &mut self.groups);
        reply
    }

    fn close(&mut self, section: u32, label: &Label) -> Reply
        ensures { spec.close self.old section (outcome_spec.open_socket self.old section label.now)
            ≡ record { flat = self.new; reply = result } }
    {
        match self.open_socket(section, label) {
            None => Reply::Ebadf,
            Some(socket) => self.close_socket(section, socket),
        }
    }

    fn close_socket(&mut self, section: u32, socket: Socket) -> Reply
        ensures { spec.close_socket self.old section socket socket.owner.state
            ≡ record { flat = self.new; reply = result } }
    {
        match socket.owner.state {
            State::Full => self.close_full(section, socket),
            _ => self.remove(&socket, Reply::Ok),
        }
    }

    /// A full socket leaves a TIME_WAIT, where a slot is free for that beside its own.
    fn close_full(&mut self, section: u32, socket: Socket) -> Reply
        ensures { spec.close_full self.old section socket
            ≡ record { flat = self.new; reply = result } }
    {
        if self.has_slot() {
            let moment = self.moment(section);
            return self.put(waiting(socket, moment), Reply::TimeWait);
        }
        let no_slot = Reply::NoSlot {
            owned: self.header.shape.slots,
            held: 0,
        };
        self.remove(&socket, no_slot)
    }

    fn drop_socket(&mut self, section: u32, label: &Label) -> Reply
        ensures { spec.drop self.old (outcome_spec.open_socket self.old section label.now)
            ≡ record { flat = self.new; reply = result } }
    {
        match self.open_socket(section, label) {
            None => Reply::Ebadf,
            Some(socket) => self.remove(&socket, Reply::Ok),
        }
    }

    fn at(&mut self, section: u32, moment: u32) -> Result<Reply, AllocError>
        requires { section ≤ 64 }
        ensures step { IfOk result (λ reply. spec.at self.old section moment
            ≡ record { flat = self.new; reply = reply }) }
        ensures err { OnErr result (self.new ≡ self.old) }
    {
        if moment < self.moment(section) {
            return Ok(Reply::Einval);
        }
        set_moment(
            self.alloc,
            &self.header,
            &mut self.sections,
            section,
            moment,
        )?;
        Ok(Reply::Ok)
    }

    fn reap(&mut self, section: u32) -> Reply
        ensures { spec.reap self.old section ≡ record { flat = self.new; reply = result } }
    {
        let moment = self.moment(section);
        let count = search::count_expired(section, moment, &self.sockets);
        search::remove_expired(section, moment, &mut self.sockets);
        Reply::Count(count as u64)
    }

    /// Carries out a command of the section of that number, 1 to 64, and answers its reply. `packets` and `dump` do
    /// nothing here: who runs a script looks the capture's packets up by [`Flat::look`], and lists by [`Flat::list`].
    ///
    /// A refusal leaves all sockets and groups as they were. An `Err`, for want of memory, changes
    /// nothing; only commands after which a label, a socket, a group or a moment may be kept that wasn't
    /// take memory. Each command goes through the whole list, and a search for a port does so for each
    /// port that it tries.
    #[tactic(auto, unfolding(crate::specs::Step::step))]
    pub fn apply(&mut self, section: u32, command: &Command) -> Result<Reply, AllocError>
        requires number { section ≤ 64 }
        requires room { length (sections_spec.labels_of section self.old.sections) + 1 < 2 ^ 56 }
        ensures step { IfOk result (λ reply. spec.step self.old section command.now
            ≡ record { flat = self.new; reply = reply }) }
        ensures err { OnErr result (self.new ≡ self.old) }
        ensures needs_memory { OnErr result (spec.may_grow command.now ≡ true) }
        ensures labels { sections_spec.GivesOneAtMost self.old.sections self.new.sections }
        ensures others { sections_spec.KeepsOthers section self.old.sections self.new.sections }
    {
        match command {
            Command::Socket { label, options } => self.socket(section, label, *options),
            Command::Bind { label, end } => Ok(self.bind(section, label, *end)),
            Command::Listen { label } => self.listen(section, label),
            Command::Connect { label, from, to } => Ok(self.connect(section, label, *from, *to)),
            Command::Accept {
                listener,
                label,
                from,
                at,
            } => self.accept(section, listener, label, *from, *at),
            Command::Syn {
                listener,
                label,
                from,
                at,
            } => self.syn(section, listener, label, *from, *at),
            Command::Ack { request, label } => self.ack(section, request, label),
            Command::Close { label } => Ok(self.close(section, label)),
            Command::Drop { label } => Ok(self.drop_socket(section, label)),
            Command::At { moment } => self.at(section, *moment),
            Command::Reap => Ok(self.reap(section)),
            Command::Look { query } => Ok(Reply::Found(self.look(&packet_of(*query)))),
            Command::Packets { .. } | Command::Dump => Ok(Reply::Ok),
        }
    }

    /// The label of a socket, by its name; empty where no section has given such a name.
    pub fn label_of(&self, name: u64) -> &[u8]
        ensures { result.now ≡ sections_spec.label_of self.now.sections name }
    {
        match section_of((name >> 56) as u32, &self.sections) {
            None => &[],
            Some(section) => section.label_at(name & 0xFF_FFFF_FFFF_FFFF),
        }
    }

    /// The card of the socket that a packet finds: of those that match best the first, or where that is
    /// in a group, the member that the hash of the packet's four-tuple chooses.
    ///
    /// In a list that commands made, those that match best are one, or members of one group.
    pub fn look(&self, packet: &Packet) -> Option<Card>
        ensures { result ≡ look_spec.look packet.now self.now.header.seed self.now.sockets self.now.groups }
    {
        search::look(packet, self.header.seed, &self.sockets, &self.groups)
    }

    /// The cards of all hashed sockets, ascending by name.
    ///
    /// Takes memory for them, and time about in proportion to them and to the groups.
    pub fn list(&self) -> Result<Vec<Card>, AllocError>
        ensures { IfOk result (λ cards. cards.items ≡ listed self.now) }
    {
        let cards = search::cards_of(self.alloc, &self.groups, &self.sockets)?;
        in_order(cards)
    }
}
