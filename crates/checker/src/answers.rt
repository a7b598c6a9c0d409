// What each call hands back. Where the state is part of it, document 01's numbers stand beside it, and it crosses to C as it is: the
// state would be copied to put them there later.
use judging::answers::Answer;
use session::state::Session;
use timing::clocks::ControllerCycles;

#[repr(C)]
#[derive(Drop)]
pub struct Opened {
    pub session: Session,
    pub number: u64,
}

#[repr(C)]
#[derive(Drop)]
pub struct Offered {
    pub session: Session,
    pub answer: Answer,
}

#[repr(C)]
#[derive(Drop)]
pub struct TakenBack {
    pub session: Session,
    pub number: u64,
}

#[derive(Drop)]
pub struct Status {
    pub client: u32,
    pub opening: u32,
    pub survivors: u64,
    pub depth: u64,
    pub last: ControllerCycles,
    pub records: u64,
}

// A part of the lent journal: where it starts and how many bytes it has.
#[repr(C)]
#[derive(Drop)]
pub struct Stretch {
    pub start: usize,
    pub size: usize,
}
