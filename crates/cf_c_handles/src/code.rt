//! What a call answers.
ghost use Rattle.std.specs.Prelude.{◌≡◌, MatchOption, None, Some};
ghost use Rattle.cf_c_handles.specs.Codes.{desk_code, number_of, open_code, plan_code};
ghost use Rattle.cf_c_handles.specs.Texts.{code_text};

use cf_desk::{DeskFault, OpenFault};
use cf_plan::PlanFault;
use std::alloc::AllocError;

/// Why a call didn't do what it was asked, by the numbers that C sees. 0 means that it did.
#[derive(Clone, Copy)]
pub enum Code {
    /// 1 to 9: the builder of plans refused the stage or the limit, by the numbers of its faults. `NoMemory` is told by
    /// every call that takes memory.
    TooManyStages = 1,
    SourceNotLower,
    WrongSourceCount,
    FunctionMissing,
    FunctionUnwanted,
    TooManyEdges,
    NoSuchStage,
    NoMemory,
    TooManyLimits,
    /// 10: nothing stands behind the handle.
    Empty,
    /// 11: something stands behind a handle that has to be empty.
    Full,
    /// 12: something of another kind stands behind the handle.
    WrongKind,
    /// 13: no form, no call of an event and no code has this number.
    NoSuchNumber,
    /// 14: a stage that the call names isn't there.
    NoStage,
    /// 15: a stage that is to be attached doesn't fit its form.
    BadAttach,
    /// 16: with this room there would be too many stages or edges.
    Room,
    /// 17: nothing is there: no ready stage, no function, no event or record at a place.
    Nothing,
    /// 18: a desk is to have no caller, or more than 64.
    Callers,
    /// 19: a desk's log is to hold nothing.
    Log,
    /// 20: a desk's callers are to hold no record.
    Calls,
    /// 21: a function of the plan isn't below the number of functions.
    Functions,
    /// 22: the caller holds as many records as it may.
    PassFull,
    /// 23: the log is full.
    LogFull,
    /// 24: the two callers aren't of one desk.
    OtherDesk,
    /// 25: callers of the desk weren't given back yet.
    NotAll,
    /// 26: the word isn't the word of an event, or the event has no word.
    NoWord,
    /// 27: the script has a fault.
    BadScript,
    /// 28: all callers of a desk were given back, but something still holds the desk.
    StillShared,
    /// 29: the caller hasn't claimed the stage that its task holds.
    NotHeld,
    /// 30: a ledger has no room for the stage that a word attaches.
    NoRoom,
    /// 31: another caller claimed or settled the stage first.
    Lost,
    /// 32: a sweep hasn't gone through all stages yet.
    NotOver,
    /// 33: a request is to have no lane, or more than 16, or not a lane for each stage of its plan.
    Lanes,
    /// 34: a lane that the call names isn't there.
    NoLane,
    /// 35: the moment is before the last one.
    PastMoment,
    /// 36: a text ends before it begins or behind the bytes that it stands in, or it isn't UTF-8.
    BadText,
    /// 37: there are more texts or times than stages, callers or events can be.
    TooMany,
    /// 38: a put is under way, of which it isn't known what became of it.
    UnderWay,
    /// 39: a session has no such number, or fewer tokens left than there are words.
    NoTokens,
    /// 40: a join is to want none of its sources, or more than there are.
    NoQuorum,
    /// 41: no such ticket is open, as behind its answer.
    NoTicket,
    /// 42: an answer isn't one to its ticket's question, or an act doesn't fit its request.
    Unfit,
    /// 43: two numbers are no note's.
    NoNote,
    /// 44: a host doesn't work on the request, or hasn't opened it.
    NotOpen,
}

impl From<AllocError> for Code {
    ghost use Rattle.cf_c_handles.specs.declared.code.Code.TheVariants.{NoMemory};

    ghost from_gives = { λ _ fault. fault ≡ NoMemory };

    fn from(_refused: AllocError) -> Code {
        Code::NoMemory
    }
}

impl Code {
    /// The number that C sees.
    pub fn number(self) -> u32
        ensures { result ≡ number_of self }
    {
        self as u32
    }
}

/// The text of a number that a call may answer, if it is one.
pub fn text_of(number: u32) -> Option<&'static str>
    ensures { MatchOption result (code_text number ≡ None) (λ text. code_text number ≡ Some text.now) }
{
    match number {
        0 => Some("Ok"),
        1 => Some("TooManyStages"),
        2 => Some("SourceNotLower"),
        3 => Some("WrongSourceCount"),
        4 => Some("FunctionMissing"),
        5 => Some("FunctionUnwanted"),
        6 => Some("TooManyEdges"),
        7 => Some("NoSuchStage"),
        8 => Some("NoMemory"),
        9 => Some("TooManyLimits"),
        10 => Some("Empty"),
        11 => Some("Full"),
        12 => Some("WrongKind"),
        13 => Some("NoSuchNumber"),
        14 => Some("NoStage"),
        15 => Some("BadAttach"),
        16 => Some("Room"),
        17 => Some("Nothing"),
        18 => Some("Callers"),
        19 => Some("Log"),
        20 => Some("Calls"),
        21 => Some("Functions"),
        22 => Some("PassFull"),
        23 => Some("LogFull"),
        24 => Some("OtherDesk"),
        25 => Some("NotAll"),
        26 => Some("NoWord"),
        27 => Some("BadScript"),
        28 => Some("StillShared"),
        29 => Some("NotHeld"),
        30 => Some("NoRoom"),
        31 => Some("Lost"),
        32 => Some("NotOver"),
        33 => Some("Lanes"),
        34 => Some("NoLane"),
        35 => Some("PastMoment"),
        36 => Some("BadText"),
        37 => Some("TooMany"),
        38 => Some("UnderWay"),
        39 => Some("NoTokens"),
        40 => Some("NoQuorum"),
        41 => Some("NoTicket"),
        42 => Some("Unfit"),
        43 => Some("NoNote"),
        44 => Some("NotOpen"),
        255 => Some("Null"),
        _ => None,
    }
}

/// The code of a plan's fault.
pub fn plan_code(fault: PlanFault) -> Code
    ensures { result ≡ plan_code fault }
{
    match fault {
        PlanFault::TooManyStages => Code::TooManyStages,
        PlanFault::SourceNotLower => Code::SourceNotLower,
        PlanFault::WrongSourceCount => Code::WrongSourceCount,
        PlanFault::FunctionMissing => Code::FunctionMissing,
        PlanFault::FunctionUnwanted => Code::FunctionUnwanted,
        PlanFault::TooManyEdges => Code::TooManyEdges,
        PlanFault::NoSuchStage => Code::NoSuchStage,
        PlanFault::NoMemory => Code::NoMemory,
        PlanFault::TooManyLimits => Code::TooManyLimits,
    }
}

/// The code of a fault for which a desk isn't opened.
pub(crate) fn open_code(fault: OpenFault) -> Code
    ensures { result ≡ open_code fault }
{
    match fault {
        OpenFault::NoMemory => Code::NoMemory,
        OpenFault::Callers => Code::Callers,
        OpenFault::Log => Code::Log,
        OpenFault::Calls => Code::Calls,
        OpenFault::Room => Code::Room,
        OpenFault::Functions => Code::Functions,
    }
}

/// The code of a fault for which a desk's call is refused.
pub(crate) fn desk_code(fault: DeskFault) -> Code
    ensures { result ≡ desk_code fault }
{
    match fault {
        DeskFault::NoStage => Code::NoStage,
        DeskFault::BadAttach => Code::BadAttach,
        DeskFault::LogFull => Code::LogFull,
        DeskFault::PassFull => Code::PassFull,
    }
}
