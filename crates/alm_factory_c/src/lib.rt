// The public calls of psi and d_psi for C, over a struct that C holds; the header is host/include/pozkerrin.h. A number of an enum is exact: what C reads goes
// out by an encoder, with a case for each; what C writes is decoded, and every number has a meaning. An answer that the table refuses by 6 to 8 writes nothing.
#![tactic(auto)]

pub mod d_psi;
pub mod numbers;
pub mod psi;
