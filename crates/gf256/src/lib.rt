//! The field of 256 elements, and the strips and parts of objects that are defined over it.
//!
//! A byte is a polynomial over two elements of degree below 8, bit k is the coefficient of x^k, and
//! products are taken modulo x^8 + x^4 + x^3 + x^2 + 1. [`add`], [`mul`] and [`inv`] are that field's
//! sum, product and inverse, found in two tables; [`field_laws`] says that it is a field.
//! `specs/Strip.antt` defines the strips of a block by Lagrange's sum, and `proofs/` shows that one
//! polynomial of degree below d goes through d points. `specs/Part.antt` defines the part of an object
//! that is kept under an index, by strips of blocks, and which parts give the object's bytes back. The
//! crate stands on `object_id`, which says how long a block is and what a policy is, and takes no memory.
#![tactic(auto)]

mod element;
mod laws;
mod strips;
mod tables;

pub use element::{add, inv, logarithm, mul, power};
pub use laws::{enough_parts, field_laws, interpolation_laws, part_laws, strip_laws};
pub use strips::TooFewStrips;
