// Loops over runs of neighbouring doubles: copies, sums and differences of products, quotients. The kernels on dense blocks are made of them;
// neighbouring cells belong to different sums, so the loops come out packed while each sum keeps its own order.
#![tactic(auto)]

pub mod axpy;
pub mod axpy_pair;
pub mod axpy_products;
pub mod blocks;
pub mod runs;
