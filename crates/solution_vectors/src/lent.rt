// The workspace that a part of a solution reads (document 01, Record 7): its numbers and doubles as they were lent, and the layout that the numbers hold.
ghost use Rattle.std.specs.Prelude.{length};
ghost use Rattle.heading_format.specs.Fits.{Fits};

use layout::Layout;

// Fits: together they are a workspace, so that no part asks for it again.
#[derive(Clone, Copy)]
pub struct Workspace<'a> {
    pub layout: Layout,
    pub heading: &'a [u32],
    pub doubles: &'a [f64],
    ghost fits: { Fits layout heading.now (length doubles.now) },
}
