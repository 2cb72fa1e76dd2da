// What an entry makes of a byte, from the cells of a view and of the published map: a type for each mode, so that each walk is compiled for its
// mode.
ghost use Rattle.std.specs.Prelude.{◌≡◌, Bool, true, false, refl};
ghost use Rattle.extents_map.specs.Mixes as modes;
ghost use Rattle.extents_map.specs.Mixes.{Mode as Meaning, mixed as Mixes·mixed, view_is_target, is_mark_published};

// A range of bytes that has a cell of its own.
#[derive(Clone, Copy, Debug, PartialEq, Eq, Hash)]
pub struct Range {
    pub start: u32,
    pub end: u32,
    pub cell: u32,
}

impl Range {
    // A range without bytes.
    pub const NONE: Range = Range {
        start: 0,
        end: 0,
        cell: 0,
    };
}

// A rule for the bytes of a mix of a view, the published map and a range.
pub trait Mode {
    // Which mode of the definitions it is.
    ghost meaning: { Meaning };

    ghost WRITES_VIEW: { Bool };

    ghost NEEDS_VIEW_ALONE: { Bool };

    // Whether the view is the map that the mode writes, and not the published map.
    const WRITES_VIEW: bool;

    // Whether the mode takes nothing from the published map.
    const NEEDS_VIEW_ALONE: bool;

    // One byte of a mix, in its range or not, where the range has a cell and the two maps have cells v and w.
    fn mixed(inside: bool, cell: u32, v: u32, w: u32) -> u32
        ensures { result ≡ Mixes·mixed meaning inside cell v w };

    // The constants are those of the mode.
    ghost writes: { WRITES_VIEW ≡ view_is_target meaning };

    ghost alone: { NEEDS_VIEW_ALONE ≡ is_mark_published meaning };
}

// The published map after publishing the view and the range.
#[derive(Clone, Copy, Debug, PartialEq, Eq, Hash)]
pub struct Publish;

impl Mode for Publish {
    ghost meaning = { modes.Publish };

    ghost WRITES_VIEW = { false };

    ghost NEEDS_VIEW_ALONE = { false };

    ghost writes = { refl };

    ghost alone = { refl };

    const WRITES_VIEW: bool = false;

    const NEEDS_VIEW_ALONE: bool = false;

    #[tactic(auto, unfolding(crate::specs::Mixes::mixed))]
    fn mixed(inside: bool, cell: u32, v: u32, w: u32) -> u32 {
        if inside {
            return cell;
        }
        if v % 2 == 1 {
            return v / 2 * 2;
        }
        w
    }
}

// The view after publishing it and the range.
#[derive(Clone, Copy, Debug, PartialEq, Eq, Hash)]
pub struct MarkPublished;

impl Mode for MarkPublished {
    ghost meaning = { modes.MarkPublished };

    ghost WRITES_VIEW = { true };

    ghost NEEDS_VIEW_ALONE = { true };

    ghost writes = { refl };

    ghost alone = { refl };

    const WRITES_VIEW: bool = true;

    const NEEDS_VIEW_ALONE: bool = true;

    #[tactic(auto, unfolding(crate::specs::Mixes::mixed))]
    fn mixed(inside: bool, cell: u32, v: u32, _w: u32) -> u32 {
        if inside {
            return cell;
        }
        v / 2 * 2
    }
}

// The view after a refresh.
#[derive(Clone, Copy, Debug, PartialEq, Eq, Hash)]
pub struct Refresh;

impl Mode for Refresh {
    ghost meaning = { modes.Refresh };

    ghost WRITES_VIEW = { true };

    ghost NEEDS_VIEW_ALONE = { false };

    ghost writes = { refl };

    ghost alone = { refl };

    const WRITES_VIEW: bool = true;

    const NEEDS_VIEW_ALONE: bool = false;

    #[tactic(auto, unfolding(crate::specs::Mixes::mixed))]
    fn mixed(_inside: bool, _cell: u32, v: u32, w: u32) -> u32 {
        if v % 2 == 1 { v } else { w }
    }
}

// A piece's value, its row number and one, in the view.
#[derive(Clone, Copy, Debug, PartialEq, Eq, Hash)]
pub struct ReadMap;

impl Mode for ReadMap {
    ghost meaning = { modes.ReadMap };

    ghost WRITES_VIEW = { true };

    ghost NEEDS_VIEW_ALONE = { false };

    ghost writes = { refl };

    ghost alone = { refl };

    const WRITES_VIEW: bool = true;

    const NEEDS_VIEW_ALONE: bool = false;

    #[tactic(auto, unfolding(crate::specs::Mixes::mixed))]
    fn mixed(_inside: bool, _cell: u32, v: u32, _w: u32) -> u32 {
        v / 2 + 1
    }
}

// A piece's value in the view after a refresh.
#[derive(Clone, Copy, Debug, PartialEq, Eq, Hash)]
pub struct ReadFresh;

impl Mode for ReadFresh {
    ghost meaning = { modes.ReadFresh };

    ghost WRITES_VIEW = { true };

    ghost NEEDS_VIEW_ALONE = { false };

    ghost writes = { refl };

    ghost alone = { refl };

    const WRITES_VIEW: bool = true;

    const NEEDS_VIEW_ALONE: bool = false;

    #[tactic(auto, unfolding(crate::specs::Mixes::mixed))]
    fn mixed(_inside: bool, _cell: u32, v: u32, w: u32) -> u32 {
        if v % 2 == 1 { v / 2 + 1 } else { w / 2 + 1 }
    }
}
