//! How a read or write of a guest goes: cut at the borders of objects, each piece by works on single objects.
//!
//! [`begin_disk`] makes a [`Driver`] of a request on the open [`Disk`]; it hands out one work after the other, goes on by
//! [`Driver::on_done`] when that is done, and in the end replies. Contracts see it as where the request is (`specs/Driver.antt`), with
//! the pieces that are left. It keeps no list of pieces: each is worked out from its object's index. [`disk_refusal`] says which
//! requests are refused on the spot.
//!
//! The crate stands on `peer_proto` and `inode`. Its definitions say how a request is cut (`specs/Pieces.antt`), what the table says
//! of an object and which works a piece asks for (`specs/PieceWorks.antt`), when a request is refused (`specs/Refusals.antt`), each
//! of the steps that the calls make (`specs/Driver.antt`), the whole course of a request (`specs/Course.antt`), and how the works of
//! a session's requests on its disk's inode wait for each other (`specs/InodeQueue.antt`). How the code keeps a driver is in
//! `specs/Extent.antt` and `specs/Progress.antt`, what a call asks for in `specs/OnDisk.antt`, and that what a driver begins is a
//! work that a gateway takes in `specs/BegunWorks.antt`.
//! The laws of `laws.rt` say what these mean: the pieces are the request, cut at the borders of objects; how pieces are
//! read and written, each by what the table says of its object; an entry is written only after its object was created;
//! what a driver begins is a work that a gateway takes; and works on an inode are done one at a time.
#![tactic(auto)]

mod act;
mod disk;
mod driver;
mod extent;
mod holes;
mod inode_queue;
mod laws;
mod piece;
mod progress;
mod reads;
mod refusals;
mod waiting_work;
mod works;
mod writes;

pub use act::DriverAct;
pub use disk::Disk;
pub use driver::{Driver, begin_disk};
pub use inode_queue::InodeQueue;
pub use laws::{
    a_driver_begins_works, a_driver_waits_for_works, a_read_goes_by_its_pieces,
    a_write_goes_by_its_entries, asks_are_refused_on_the_spot_so, entries_follow_their_objects,
    pieces_are_the_request, the_line_keeps_its_order,
};
pub use peer_proto::{DiskAsk, GuestRsp};
pub use refusals::{disk_refusal, is_ask};
pub use waiting_work::WaitingWork;
