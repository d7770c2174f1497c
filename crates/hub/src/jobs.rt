// What the hub keeps of a job.
use part::shapes::{Answer, Descriptor, State};

// One slot's entry: every number is 32 bits, with no gap, so that any lent bytes are an entry. The mark is 0 when the job is closed.
#[repr(C)]
#[derive(Clone, Copy)]
pub struct Entry {
    pub key: u32,
    pub mark: u32,
    pub descriptor: Descriptor,
    pub state: State,
    pub next: u32,
    pub taken: u32,
}

// A request's entry afterwards, and its answer: what the rules say of it, as `Requests.opening`. The code changes the entry in place.
#[repr(C)]
#[derive(Clone, Copy)]
pub struct Out {
    pub entry: Entry,
    pub answer: Answer,
}
