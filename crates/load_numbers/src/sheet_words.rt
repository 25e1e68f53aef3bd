// The numbers of a sheet into a workspace (document 01, Record 3): every double that the formula counts becomes +0.0, and then each word of the
// sheet goes into its place. Definitions are in the crate workspace, specs/Loaded.antt, and in specs/word_address/Spread.antt.
ghost use Rattle.std.specs.Prelude.{◌≡◌, ◌≤◌, length};
ghost use Rattle.storage.specs.Part.{store};
ghost use Rattle.sheet.specs.Sheet.{Sheet, accepted, read_sheet};
ghost use Rattle.layout.specs.Shapes.{doubles_needed};
ghost use Rattle.workspace.specs.Load.{doubles_of};
ghost use Rattle.load_numbers.specs.sheet_words.Ready.{Ready};
ghost use Rattle.load_numbers.specs.sheet_words.Runs.{first_runs, last_runs};

use crate::word_address::Run;
use crate::{clear_doubles, store_words};
use block_places::row_map::Map;
use layout::Layout;
use sheet::Starts;
use sheet_checks::levels;

// Z'Z, Z'X and Z'y.
fn first_runs(bytes: &[u8], starts: Starts, map: &Map, doubles: &mut [f64])
    requires { Ready bytes.now starts map.now.layout }
    ensures { (sheet : Sheet) → read_sheet bytes.now ≡ accepted sheet starts → doubles.new ≡ first_runs bytes.now sheet starts map.now.layout doubles.old }
{
    store_words::scatter(
        Run::Zz,
        bytes,
        starts.zz,
        0,
        levels::entries(starts),
        map,
        doubles,
    );
    store_words::scatter(
        Run::Zx,
        bytes,
        starts.zx,
        0,
        map.layout.q * map.layout.p,
        map,
        doubles,
    );
    store_words::scatter(Run::Zy, bytes, starts.zy, 0, map.layout.q, map, doubles);
}

// X'X, X'y and y'y: the last triangle in its order.
fn last_runs(bytes: &[u8], starts: Starts, map: &Map, doubles: &mut [f64])
    requires { Ready bytes.now starts map.now.layout }
    ensures { (sheet : Sheet) → read_sheet bytes.now ≡ accepted sheet starts → doubles.new ≡ last_runs bytes.now sheet starts map.now.layout doubles.old }
{
    let triangle = map.layout.p * (map.layout.p + 1) / 2;
    store_words::scatter(Run::Xx, bytes, starts.xx, 0, triangle, map, doubles);
    store_words::scatter(
        Run::Xy,
        bytes,
        starts.xy,
        triangle,
        map.layout.p,
        map,
        doubles,
    );
    store_words::scatter(
        Run::Yy,
        bytes,
        starts.yy,
        triangle + map.layout.p,
        1,
        map,
        doubles,
    );
}

// The loaded numbers, and every working double +0.0.
pub fn load_numbers(bytes: &[u8], starts: Starts, layout: Layout, doubles: &mut [f64])
    requires { Ready bytes.now starts layout × (doubles_needed layout ≤ length doubles.old) }
    ensures { (sheet : Sheet) → read_sheet bytes.now ≡ accepted sheet starts → doubles.new ≡ store 0 (doubles_of sheet layout) doubles.old }
{
    let map = Map::of(layout);
    clear_doubles::clear_all(layout, doubles);
    first_runs(bytes, starts, &map, doubles);
    last_runs(bytes, starts, &map, doubles);
}
