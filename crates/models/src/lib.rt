// The models, and their table: which rows publish and which refresh, by model and kind.
#![tactic(auto)]

ghost use Rattle.std.specs.Prelude.{◌≡◌};
ghost use Rattle.models.specs.Models.{model_number};
ghost use Rattle.models.specs.Table.{publishes, refreshes, table_entry};

// What decides when a write becomes visible to another process.
#[derive(Clone, Copy, Debug, PartialEq, Eq, Hash)]
pub enum Model {
    Posix,
    Commit,
    Session,
    MpiIo,
}

impl Model {
    // Every model, by its number.
    pub const ALL: [Model; MODELS] = [Model::Posix, Model::Commit, Model::Session, Model::MpiIo];

    // The number that stands for the model in a call.
    pub fn number(self) -> u32
        ensures { result ≡ model_number self }
    {
        self as u32
    }
}

// What a row does besides reading or writing.
#[derive(Clone, Copy, Debug, PartialEq, Eq, Hash)]
struct Marks {
    publishes: bool,
    refreshes: bool,
}

const NEITHER: Marks = Marks {
    publishes: false,
    refreshes: false,
};

const PUBLISH: Marks = Marks {
    publishes: true,
    refreshes: false,
};

const REFRESH: Marks = Marks {
    publishes: false,
    refreshes: true,
};

const BOTH: Marks = Marks {
    publishes: true,
    refreshes: true,
};

const MODELS: usize = rows::MODELS as usize;

const KINDS: usize = rows::KINDS as usize;

// Models by kinds: read, write, commit, open, close, sync, send, recv, wait, barrier. A static: a constant would be put on the stack at each reading.
static TABLE: [[Marks; KINDS]; MODELS] = [
    // POSIX
    [
        REFRESH, PUBLISH, NEITHER, NEITHER, NEITHER, NEITHER, NEITHER, NEITHER, NEITHER, NEITHER,
    ],
    // commit
    [
        REFRESH, NEITHER, PUBLISH, NEITHER, NEITHER, NEITHER, NEITHER, NEITHER, NEITHER, NEITHER,
    ],
    // session
    [
        NEITHER, NEITHER, NEITHER, REFRESH, PUBLISH, NEITHER, NEITHER, NEITHER, NEITHER, NEITHER,
    ],
    // MPI-IO
    [
        NEITHER, NEITHER, NEITHER, REFRESH, PUBLISH, BOTH, NEITHER, NEITHER, NEITHER, NEITHER,
    ],
];

// The table's entry for a row of this kind under this model; NEITHER for a number that is no model or no kind.
fn table_entry(model: u32, kind: u32) -> Marks
    ensures { result ≡ table_entry model kind }
{
    if model < rows::MODELS && kind < rows::KINDS {
        TABLE[model as usize][kind as usize]
    } else {
        NEITHER
    }
}

// A row of this kind publishes under this model.
pub fn is_publish(model: u32, kind: u32) -> bool
    ensures { result ≡ publishes model kind }
{
    table_entry(model, kind).publishes
}

// A row of this kind refreshes under this model.
pub fn is_refresh(model: u32, kind: u32) -> bool
    ensures { result ≡ refreshes model kind }
{
    table_entry(model, kind).refreshes
}
