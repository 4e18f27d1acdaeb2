//! When a node's turns begin, and what each of them leaves out, so that idle nodes are quiet and
//! busy ones quick.
//!
//! A frame that is sent again means nothing to the protocol. So a run of equal frames can carry a
//! signal that costs it nothing. The second equal frame in a row is a question, which is answered
//! at once. Each fourth one is a call for haste, which goes on through the tree, if it follows the
//! one before it at once: within half of the time after which a frame is given again, 4
//! milliseconds at most. A [`TurnPace`] keeps what was given and heard at each port and when, and
//! says before each turn what its [`Plan`] is, and after it how long to rest.
//!
//! ```
//! let plan = pace.plan(&sights, &outlook, now);       // on which ports to offer; a tick or none
//! pace.gave(2, &frame, now);                          // port 2 was given a frame
//! pace.heard(0, &frame, &trees, now);                 // port 0 brought one
//! pace.ticked(&outlook, moved, &trees, now);          // the node ticked
//! let microseconds = pace.rest(&sights, &outlook, now);       // 0 to 2000
//! ```
//!
//! It is no part of the protocol: whatever it says, a node stays in range and a network
//! stabilises, and whatever its fields hold, no rest is longer than 2 milliseconds, every port
//! that takes frames is due one once the repetition time is over, and a tick is left out for the
//! sake of a lease alone.
//!
//! The trap: times are microseconds of a clock that never goes back. A time that lies ahead counts
//! as long ago.
#![tactic(auto)]

mod clock;
pub mod laws;
mod node;
mod pace;
mod port;

pub use node::{NodePace, Outlook};
pub use pace::{Manner, PORTS, Plan, TurnPace};
pub use port::{Calling, Hearing, PortPace, PortSight};
