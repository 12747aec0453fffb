//! What the numbers of a call stand for.

ghost use Rattle.std.specs.Prelude.{◌≡◌, ◌↔◌, IsTrue};
ghost use Rattle.inet_c.specs.Words as spec;
ghost use Rattle.inet_c.specs.Words.{AreOptions, IsNamespace};

use flat_list::Options;

/// Whether there is such a namespace.
pub fn is_namespace(net: u8) -> bool
    ensures { IsTrue result ↔ IsNamespace net }
{
    net < 16
}

/// Whether there are such a namespace and such flags.
pub fn are_options(net: u8, flags: u32) -> bool
    ensures { IsTrue result ↔ AreOptions net flags }
{
    is_namespace(net) && flags < 8
}

/// The options of a new socket.
pub fn options(net: u8, uid: u32, dev: u16, flags: u32) -> Options
    ensures { result ≡ spec.options net uid dev flags }
{
    Options {
        net: Some(net),
        uid: Some(uid),
        dev: Some(dev),
        reuseaddr: flags % 2 == 1,
        reuseport: flags / 2 % 2 == 1,
        noport: flags / 4 % 2 == 1,
    }
}

/// The source that a `connect` names.
pub fn source(from: u32) -> Option<u32>
    ensures { result ≡ spec.source from }
{
    if from == 0 { None } else { Some(from) }
}
