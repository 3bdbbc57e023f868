// What a line asks for.

/// A call of the bench with its numbers, as the line has them.
// An end too is the number of the line: which numbers are ends is the bench's to say, and it refuses the others by cause 4.
#[derive(Clone, Copy, Debug, PartialEq, Eq)]
pub enum Command {
    Open {
        control: u32,
        x: u32,
        r: u32,
        interval: u32,
    },
    Moments {
        n: u32,
    },
    Put {
        end: u32,
        address: u32,
        count: u32,
        value: u32,
    },
    Get {
        end: u32,
        address: u32,
        count: u32,
    },
    Load {
        end: u32,
        character: u32,
    },
    Take {
        end: u32,
    },
}
