// What a host may have happen within one moment.

/// An event of a moment, in the host's numbers: the end, 0 or 1; the kind, 0 sets DSR and 1 writes an output bit; the address of
/// that bit; the value, 0 or 1; and the number at which it was served, which an accepted moment writes.
// The end and the kind are numbers and not enums: a host of C may send any number, and the moment refuses those out of range by causes 4 and 5.
#[derive(Clone, Copy, Debug, PartialEq, Eq)]
pub struct Event {
    pub end: u32,
    pub kind: u32,
    pub address: u32,
    pub value: u32,
    pub served: u32,
}
