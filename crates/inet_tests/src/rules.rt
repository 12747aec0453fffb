//! Scripts of several sections, and of commands that more than one cause refuses: the text of each, and the whole of
//! what is written for it. An independent model of the rules gave the outputs; the definitions give them, too
//! (`more_rows` in flat_list).

use crate::tests::{PLAIN, call};
use inet_tool::Status;
use std::test::Fail;

/// The order of refusals, and each cause of EINVAL by itself.
const REFUSALS: (&str, &str) = (
    "\
     table slots 3 bind 1 hash 1 listen 1\n\
     script 1\n\
     socket l\n\
     bind l 10.0.0.1:80\n\
     listen l\n\
     connect l to 0.0.0.0:80\n\
     socket b\n\
     bind b 10.0.0.1:90\n\
     connect b to 0.0.0.0:80\n\
     connect b to 10.0.0.2:0\n\
     connect b from 0.0.0.0 to 10.0.0.2:80\n\
     connect b from 10.0.0.1 to 10.0.0.2:80\n\
     connect b to 10.0.0.2:0\n\
     accept l c1 from 10.0.0.2:1 at 0.0.0.0:80\n\
     accept l c2 from 10.0.0.2:1 at 10.0.0.3:80\n\
     accept l c3 from 10.0.0.2:1 at 10.0.0.1:81\n\
     accept l c4 from 0.0.0.0:1 at 10.0.0.1:80\n\
     accept l c5 from 10.0.0.2:0 at 10.0.0.1:80\n\
     accept l c6 from 10.0.0.2:1 at 10.0.0.1:80\n\
     accept l c7 from 10.0.0.2:1 at 10.0.0.1:80\n\
     accept l c8 from 10.0.0.2:2 at 10.0.0.1:80\n\
     accept c6 c9 from 10.0.0.2:2 at 10.0.0.1:80\n\
     socket any\n\
     bind any 0.0.0.0:91\n\
     connect any from 0.0.0.0 to 10.0.0.2:80\n\
     connect any to 10.0.0.2:80\n\
     connect any from 10.0.0.1 to 10.0.0.2:80\n",
    "\
     1 socket l ok\n\
     1 bind l ok 80\n\
     1 listen l ok 80\n\
     1 connect l EISCONN\n\
     1 socket b ok\n\
     1 bind b ok 90\n\
     1 connect b EINVAL\n\
     1 connect b EINVAL\n\
     1 connect b EINVAL\n\
     1 connect b ok 10.0.0.1:90\n\
     1 connect b EISCONN\n\
     1 accept c1 EINVAL\n\
     1 accept c2 EINVAL\n\
     1 accept c3 EINVAL\n\
     1 accept c4 EINVAL\n\
     1 accept c5 EINVAL\n\
     1 accept c6 ok\n\
     1 accept c7 EADDRNOTAVAIL\n\
     1 accept c8 ENFILE 3 0\n\
     1 accept c9 EINVAL\n\
     1 socket any ok\n\
     1 bind any ok 91\n\
     1 connect any EINVAL\n\
     1 connect any EINVAL\n\
     1 connect any ENFILE 3 0\n",
);

/// EMFILE is reported before ENFILE, EADDRINUSE before both, and EADDRNOTAVAIL of a bound connect before ENFILE.
const FULL_AND_GROUPED: (&str, &str) = (
    "\
     table slots 8 bind 1 hash 1 listen 1\n\
     script 1\n\
     socket a reuseport\n\
     bind a 10.0.0.1:80\n\
     listen a\n\
     socket b reuseport\n\
     bind b 10.0.0.1:81\n\
     listen b\n\
     socket c reuseport\n\
     bind c 10.0.0.1:82\n\
     listen c\n\
     socket d reuseport\n\
     bind d 10.0.0.1:83\n\
     listen d\n\
     socket e reuseport\n\
     bind e 10.0.0.1:84\n\
     listen e\n\
     socket f reuseport\n\
     bind f 10.0.0.1:85\n\
     listen f\n\
     socket g reuseport\n\
     bind g 10.0.0.1:86\n\
     listen g\n\
     socket h reuseport\n\
     bind h 10.0.0.1:87\n\
     listen h\n\
     socket i reuseport\n\
     bind i 10.0.0.1:88\n\
     listen i\n\
     socket j reuseport\n\
     bind j 10.0.0.1:80\n\
     listen j\n\
     drop h\n\
     listen i\n\
     listen j\n\
     drop i\n\
     socket x reuseaddr\n\
     bind x 10.0.0.1:70\n\
     connect x to 10.0.0.2:80\n\
     socket y reuseaddr\n\
     bind y 10.0.0.1:70\n\
     connect y to 10.0.0.2:80\n\
     connect y to 10.0.0.2:81\n",
    "\
     1 socket a ok\n\
     1 bind a ok 80\n\
     1 listen a ok 80\n\
     1 socket b ok\n\
     1 bind b ok 81\n\
     1 listen b ok 81\n\
     1 socket c ok\n\
     1 bind c ok 82\n\
     1 listen c ok 82\n\
     1 socket d ok\n\
     1 bind d ok 83\n\
     1 listen d ok 83\n\
     1 socket e ok\n\
     1 bind e ok 84\n\
     1 listen e ok 84\n\
     1 socket f ok\n\
     1 bind f ok 85\n\
     1 listen f ok 85\n\
     1 socket g ok\n\
     1 bind g ok 86\n\
     1 listen g ok 86\n\
     1 socket h ok\n\
     1 bind h ok 87\n\
     1 listen h ok 87\n\
     1 socket i ok\n\
     1 bind i ok 88\n\
     1 listen i EMFILE\n\
     1 socket j ok\n\
     1 bind j ok 80\n\
     1 listen j ENFILE 8 0\n\
     1 drop h ok\n\
     1 listen i ok 88\n\
     1 listen j ENFILE 8 0\n\
     1 drop i ok\n\
     1 socket x ok\n\
     1 bind x ok 70\n\
     1 connect x ok 10.0.0.1:70\n\
     1 socket y ok\n\
     1 bind y ok 70\n\
     1 connect y EADDRNOTAVAIL\n\
     1 connect y ENFILE 8 0\n",
);

/// Each section has labels, a moment, TIME_WAITs and a generator of its own; tables are shared.
const SECTIONS: (&str, &str) = (
    "\
     range 40000 40007\n\
     seed 5\n\
     twreuse 1\n\
     script 1\n\
     socket a\n\
     bind a 0.0.0.0:0\n\
     socket l dev 1\n\
     bind l 10.0.0.1:80\n\
     listen l\n\
     accept l c from 10.0.0.2:1000 at 10.0.0.1:80\n\
     look 10.0.0.2:1000 10.0.0.1:80\n\
     look 10.0.0.2:1000 10.0.0.1:80 dev 1\n\
     look 10.0.0.2:1000 10.0.0.1:80 dev 2\n\
     at 1\n\
     at 1\n\
     close c\n\
     at 60\n\
     reap\n\
     script 2\n\
     close a\n\
     close l\n\
     socket a\n\
     bind a 0.0.0.0:0\n\
     socket b\n\
     bind b 0.0.0.0:0\n\
     at 2\n\
     socket k\n\
     bind k 10.0.0.1:90\n\
     listen k\n\
     accept k c from 10.0.0.2:1000 at 10.0.0.1:90\n\
     close c\n\
     at 62\n\
     reap\n\
     look 10.0.0.2:1000 10.0.0.1:80 dev 1\n\
     script 3\n\
     at 4294967295\n\
     reap\n\
     look 10.0.0.2:1000 10.0.0.1:80 dev 1\n\
     socket m\n\
     listen m\n",
    "\
     1 socket a ok\n\
     1 bind a ok 40001\n\
     1 socket l ok\n\
     1 bind l ok 80\n\
     1 listen l ok 80\n\
     1 accept c ok\n\
     1 look none\n\
     1 look full 1.c\n\
     1 look none\n\
     1 at 1 ok\n\
     1 at 1 ok\n\
     1 close c ok time-wait\n\
     1 at 60 ok\n\
     1 reap ok 0\n\
     2 close a EBADF\n\
     2 close l EBADF\n\
     2 socket a ok\n\
     2 bind a ok 40003\n\
     2 socket b ok\n\
     2 bind b ok 40005\n\
     2 at 2 ok\n\
     2 socket k ok\n\
     2 bind k ok 90\n\
     2 listen k ok 90\n\
     2 accept c ok\n\
     2 close c ok time-wait\n\
     2 at 62 ok\n\
     2 reap ok 1\n\
     2 look time-wait 1.c\n\
     3 at 4294967295 ok\n\
     3 reap ok 0\n\
     3 look time-wait 1.c\n\
     3 socket m ok\n\
     3 listen m ok 40007\n",
);

/// A TIME_WAIT has a stamp, takes a slot, lets a socket of its options in, and gives way to accept always.
const WAITS: (&str, &str) = (
    "\
     table slots 3 bind 1 hash 1 listen 1\n\
     script 1\n\
     at 100\n\
     socket l reuseport\n\
     bind l 10.0.0.1:80\n\
     listen l\n\
     accept l c from 10.0.0.2:1000 at 10.0.0.1:80\n\
     close c\n\
     accept l d from 10.0.0.2:1001 at 10.0.0.1:80\n\
     accept l e from 10.0.0.2:1000 at 10.0.0.1:80\n\
     close d\n\
     accept l f from 10.0.0.2:1001 at 10.0.0.1:80\n\
     look 10.0.0.2:1000 10.0.0.1:80\n\
     look 10.0.0.2:1001 10.0.0.1:80\n\
     drop l\n\
     accept l g from 10.0.0.2:1001 at 10.0.0.1:80\n\
     socket o uid 7 reuseport\n\
     bind o 10.0.0.1:80\n\
     at 159\n\
     reap\n\
     at 160\n\
     reap\n\
     bind o 10.0.0.1:80\n\
     bind o 10.0.0.1:80\n",
    "\
     1 at 100 ok\n\
     1 socket l ok\n\
     1 bind l ok 80\n\
     1 listen l ok 80\n\
     1 accept c ok\n\
     1 close c ok time-wait\n\
     1 accept d ok\n\
     1 accept e ENFILE 3 0\n\
     1 close d ok no-slot 3 0\n\
     1 accept f ok\n\
     1 look time-wait 1.c\n\
     1 look full 1.f\n\
     1 drop l ok\n\
     1 accept g EBADF\n\
     1 socket o ok\n\
     1 bind o EADDRINUSE\n\
     1 at 159 ok\n\
     1 reap ok 0\n\
     1 at 160 ok\n\
     1 reap ok 1\n\
     1 bind o EADDRINUSE\n\
     1 bind o EADDRINUSE\n",
);

/// accept takes the place of a TIME_WAIT of its four-tuple, also at its very moment.
const WAIT_TAKEN: (&str, &str) = (
    "\
     script 1\n\
     socket l reuseport\n\
     bind l 10.0.0.1:80\n\
     listen l\n\
     accept l c from 10.0.0.2:1000 at 10.0.0.1:80\n\
     close c\n\
     look 10.0.0.2:1000 10.0.0.1:80\n\
     accept l d from 10.0.0.2:1000 at 10.0.0.1:80\n\
     look 10.0.0.2:1000 10.0.0.1:80\n\
     at 60\n\
     reap\n\
     drop d\n\
     close l\n\
     socket p uid 7 reuseport\n\
     bind p 10.0.0.1:80\n",
    "\
     1 socket l ok\n\
     1 bind l ok 80\n\
     1 listen l ok 80\n\
     1 accept c ok\n\
     1 close c ok time-wait\n\
     1 look time-wait 1.c\n\
     1 accept d ok\n\
     1 look full 1.d\n\
     1 at 60 ok\n\
     1 reap ok 0\n\
     1 drop d ok\n\
     1 close l ok\n\
     1 socket p ok\n\
     1 bind p ok 80\n",
);

/// A socket that shares its port by reuseport is let in by another user's TIME_WAIT.
const WAIT_SHARED: (&str, &str) = (
    "\
     script 1\n\
     socket l uid 1 reuseport\n\
     bind l 10.0.0.1:80\n\
     listen l\n\
     accept l c from 10.0.0.2:1000 at 10.0.0.1:80\n\
     drop l\n\
     socket o uid 2 reuseport\n\
     bind o 10.0.0.1:80\n\
     close c\n\
     bind o 10.0.0.1:80\n\
     listen o\n\
     look 10.0.0.2:1000 10.0.0.1:80\n\
     look 10.0.0.2:1001 10.0.0.1:80\n",
    "\
     1 socket l ok\n\
     1 bind l ok 80\n\
     1 listen l ok 80\n\
     1 accept c ok\n\
     1 drop l ok\n\
     1 socket o ok\n\
     1 bind o EADDRINUSE\n\
     1 close c ok time-wait\n\
     1 bind o ok 80\n\
     1 listen o ok 80\n\
     1 look time-wait 1.c\n\
     1 look listen 1.o\n",
);

/// A search heeds no option, looks at the address that is named, and takes its offset modulo the range's size.
const SEARCHES: (&str, &str) = (
    "\
     range 40000 40001\n\
     offset 65535\n\
     script 1\n\
     socket a reuseaddr reuseport\n\
     bind a 10.0.0.1:0\n\
     socket b reuseaddr reuseport\n\
     bind b 10.0.0.2:0\n\
     socket c reuseaddr reuseport\n\
     bind c 10.0.0.1:0\n\
     socket d reuseaddr reuseport\n\
     bind d 10.0.0.1:0\n\
     socket e dev 3\n\
     bind e 10.0.0.2:0\n\
     socket f\n\
     listen f\n\
     look 10.0.0.9:1 0.0.0.0:40001\n\
     socket w\n\
     bind w 0.0.0.0:80\n\
     listen w\n\
     look 10.0.0.9:1 0.0.0.0:80\n\
     socket x dev 4\n\
     bind x 0.0.0.0:81\n\
     listen x\n\
     look 10.0.0.9:1 0.0.0.0:81 dev 4\n\
     look 10.0.0.9:1 10.0.0.7:81 dev 4\n\
     accept w c2 from 10.0.0.9:1 at 0.0.0.0:80\n\
     accept w d2 from 10.0.0.9:1 at 10.0.0.7:80\n",
    "\
     1 socket a ok\n\
     1 bind a ok 40001\n\
     1 socket b ok\n\
     1 bind b ok 40001\n\
     1 socket c ok\n\
     1 bind c ok 40000\n\
     1 socket d ok\n\
     1 bind d EADDRINUSE\n\
     1 socket e ok\n\
     1 bind e ok 40000\n\
     1 socket f ok\n\
     1 listen f EADDRINUSE\n\
     1 look none\n\
     1 socket w ok\n\
     1 bind w ok 80\n\
     1 listen w ok 80\n\
     1 look listen 1.w\n\
     1 socket x ok\n\
     1 bind x ok 81\n\
     1 listen x ok 81\n\
     1 look listen 1.x\n\
     1 look listen 1.x\n\
     1 accept c2 EINVAL\n\
     1 accept d2 ok\n",
);

/// A TIME_WAIT keeps the mark that connect chose its port.
const KEPT_MARK: (&str, &str) = (
    "\
     range 40000 40001\n\
     script 1\n\
     socket a\n\
     connect a from 10.0.0.1 to 10.0.0.2:80\n\
     close a\n\
     socket b\n\
     connect b from 10.0.0.1 to 10.0.0.2:81\n\
     socket c\n\
     connect c from 10.0.0.1 to 10.0.0.2:80\n\
     socket d\n\
     bind d 10.0.0.9:40000\n\
     connect d to 10.0.0.2:80\n\
     socket e\n\
     connect e from 10.0.0.5 to 10.0.0.2:80\n",
    "\
     1 socket a ok\n\
     1 connect a ok 10.0.0.1:40000\n\
     1 close a ok time-wait\n\
     1 socket b ok\n\
     1 connect b ok 10.0.0.1:40000\n\
     1 socket c ok\n\
     1 connect c ok 10.0.0.1:40001\n\
     1 socket d ok\n\
     1 bind d ok 40000\n\
     1 connect d ok 10.0.0.9:40000\n\
     1 socket e ok\n\
     1 connect e ok 10.0.0.5:40001\n",
);

/// A device of 0 and an address of 0.0.0.0 stand for any on either side; a child has its listener's device.
const DEVICES: (&str, &str) = (
    "\
     script 1\n\
     socket a\n\
     bind a 10.0.0.1:80\n\
     socket b dev 1\n\
     bind b 10.0.0.1:80\n\
     socket c dev 1\n\
     bind c 10.0.0.1:81\n\
     socket d\n\
     bind d 10.0.0.1:81\n\
     socket e\n\
     bind e 0.0.0.0:82\n\
     socket f\n\
     bind f 10.0.0.1:82\n\
     socket g\n\
     bind g 10.0.0.1:83\n\
     socket h\n\
     bind h 0.0.0.0:83\n\
     socket i reuseaddr\n\
     bind i 10.0.0.1:84\n\
     socket j\n\
     bind j 10.0.0.1:84\n\
     socket k reuseaddr\n\
     bind k 10.0.0.1:84\n",
    "\
     1 socket a ok\n\
     1 bind a ok 80\n\
     1 socket b ok\n\
     1 bind b EADDRINUSE\n\
     1 socket c ok\n\
     1 bind c ok 81\n\
     1 socket d ok\n\
     1 bind d EADDRINUSE\n\
     1 socket e ok\n\
     1 bind e ok 82\n\
     1 socket f ok\n\
     1 bind f EADDRINUSE\n\
     1 socket g ok\n\
     1 bind g ok 83\n\
     1 socket h ok\n\
     1 bind h EADDRINUSE\n\
     1 socket i ok\n\
     1 bind i ok 84\n\
     1 socket j ok\n\
     1 bind j EADDRINUSE\n\
     1 socket k ok\n\
     1 bind k ok 84\n",
);

/// Two tenants have one address and one port, and a third hears nothing.
const NAMESPACES: (&str, &str) = (
    "\
     script 1\n\
     socket a\n\
     bind a 10.0.0.1:80\n\
     listen a\n\
     socket b net 1\n\
     bind b 10.0.0.1:80\n\
     listen b\n\
     look 10.0.0.2:5 10.0.0.1:80\n\
     look 10.0.0.2:5 10.0.0.1:80 net 1\n\
     look 10.0.0.2:5 10.0.0.1:80 net 2\n\
     socket c\n\
     bind c 10.0.0.1:90\n\
     socket d net 1\n\
     bind d 10.0.0.1:90\n\
     connect c to 10.0.0.2:80\n\
     connect d to 10.0.0.2:80\n",
    "\
     1 socket a ok\n\
     1 bind a ok 80\n\
     1 listen a ok 80\n\
     1 socket b ok\n\
     1 bind b ok 80\n\
     1 listen b ok 80\n\
     1 look listen 1.a\n\
     1 look listen 1.b\n\
     1 look none\n\
     1 socket c ok\n\
     1 bind c ok 90\n\
     1 socket d ok\n\
     1 bind d ok 90\n\
     1 connect c ok 10.0.0.1:90\n\
     1 connect d ok 10.0.0.1:90\n",
);

/// Sockets that take their ports late: bound anew, one port for two ends, refused and bound still, a listener at its
/// address.
const LATE_PORTS: (&str, &str) = (
    "\
     range 40000 40001\n\
     script 1\n\
     socket a noport\n\
     bind a 10.0.0.1:0\n\
     connect a from 10.0.0.2 to 10.0.0.3:80\n\
     socket b noport\n\
     bind b 10.0.0.2:0\n\
     bind b 10.0.0.1:0\n\
     connect a to 10.0.0.2:80\n\
     connect b to 10.0.0.2:81\n\
     bind b 10.0.0.1:0\n\
     socket c noport\n\
     bind c 10.0.0.9:0\n\
     socket d\n\
     bind d 0.0.0.0:40001\n\
     socket e\n\
     bind e 10.0.0.9:40000\n\
     listen c\n\
     connect c to 10.0.0.2:90\n\
     bind c 10.0.0.9:40001\n\
     drop d\n\
     listen c\n\
     look 10.0.0.2:5 10.0.0.9:40001\n\
     look 10.0.0.2:5 10.0.0.7:40001\n\
     socket f noport\n\
     connect f to 10.0.0.2:80\n\
     bind f 10.0.0.8:0\n\
     close f\n\
     connect f to 10.0.0.2:80\n",
    "\
     1 socket a ok\n\
     1 bind a ok 0\n\
     1 connect a EINVAL\n\
     1 socket b ok\n\
     1 bind b ok 0\n\
     1 bind b ok 0\n\
     1 connect a ok 10.0.0.1:40000\n\
     1 connect b ok 10.0.0.1:40000\n\
     1 bind b EINVAL\n\
     1 socket c ok\n\
     1 bind c ok 0\n\
     1 socket d ok\n\
     1 bind d ok 40001\n\
     1 socket e ok\n\
     1 bind e ok 40000\n\
     1 listen c EADDRINUSE\n\
     1 connect c EADDRNOTAVAIL\n\
     1 bind c EADDRINUSE\n\
     1 drop d ok\n\
     1 listen c ok 40001\n\
     1 look listen 1.c\n\
     1 look none\n\
     1 socket f ok\n\
     1 connect f EINVAL\n\
     1 bind f ok 0\n\
     1 close f ok\n\
     1 connect f EBADF\n",
);

/// Ports that searches pass by, and that `bind` may name.
const RESERVED: (&str, &str) = (
    "\
     reserved 40001 40003\n\
     range 40000 40003\n\
     offset 0\n\
     script 1\n\
     socket a\n\
     bind a 0.0.0.0:0\n\
     socket b\n\
     bind b 0.0.0.0:0\n\
     socket c\n\
     bind c 0.0.0.0:0\n\
     listen c\n\
     connect c from 10.0.0.1 to 10.0.0.2:80\n\
     socket d\n\
     bind d 0.0.0.0:40001\n\
     listen d\n\
     socket e noport\n\
     bind e 10.0.0.1:40003\n",
    "\
     1 socket a ok\n\
     1 bind a ok 40000\n\
     1 socket b ok\n\
     1 bind b ok 40002\n\
     1 socket c ok\n\
     1 bind c EADDRINUSE\n\
     1 listen c EADDRINUSE\n\
     1 connect c EADDRNOTAVAIL\n\
     1 socket d ok\n\
     1 bind d ok 40001\n\
     1 listen d ok 40001\n\
     1 socket e ok\n\
     1 bind e ok 40003\n",
);

#[test]
fn rules_decide_beside_each_other(rt: HostRuntime) -> Result<(), Fail> {
    let rows = [
        REFUSALS,
        FULL_AND_GROUPED,
        SECTIONS,
        WAITS,
        WAIT_TAKEN,
        WAIT_SHARED,
        SEARCHES,
        KEPT_MARK,
        DEVICES,
        NAMESPACES,
        LATE_PORTS,
        RESERVED,
    ];
    for (script, output) in rows {
        let input = script.as_bytes().to_vec(rt.alloc())?;
        let (status, written) = call(&rt, &["inet", "run"], input, PLAIN)?;
        assert!(rt; status == Status::Done, "status of {script}");
        assert_eq!(rt; written.as_slice(), output.as_bytes());
    }
    Ok(())
}
