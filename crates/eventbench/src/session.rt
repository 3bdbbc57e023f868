// The calls of one bench.
use crate::answers::{Served, show, show_done};
use bench::Bench;
use cable::interface::Cable;
use faults::End;
use pair::event::Event;
use pair::opening::Opening;
use std::alloc::{AllocError, Global};
use std::array;

/// The numbers of a line, in order; its letters are no numbers.
pub(crate) fn read_numbers(heap: Global, line: &[u8]) -> Result<Vec<u32>, AllocError> {
    std::str::from_utf8(line)
        .unwrap_or("")
        .split_whitespace()
        .filter_map(|word| word.parse::<u32>().ok())
        .collect(heap)
}

/// The first numbers of a line; one that it has not is 0, so that any line is a call, and what it prints does not change.
pub(crate) fn first_numbers<const N: usize>(numbers: &[u32]) -> [u32; N] {
    array::from_fn(|i| numbers.get(i).copied().unwrap_or(0))
}

// A count and as many numbers, and what follows them; nothing where they are fewer.
fn counted(numbers: &[u32]) -> (&[u32], &[u32]) {
    numbers
        .split_first()
        .and_then(|(count, others)| others.split_at_checked(*count as usize))
        .unwrap_or((&[], &[]))
}

/// The two lists of flips.
pub(crate) fn flips(numbers: &[u32]) -> (&[u32], &[u32]) {
    let (toward_b, others) = counted(numbers);
    let (toward_a, _) = counted(others);
    (toward_b, toward_a)
}

// The events behind their count, four numbers each; one that is missing is 0.
fn read_events(heap: Global, numbers: &[u32]) -> Result<Vec<Event>, AllocError> {
    let mut numbers = numbers.iter().copied();
    let mut next = || numbers.next().unwrap_or(0);
    let mut events = Vec::new(heap);
    for _ in 0..next() {
        events.push(Event {
            end: next(),
            kind: next(),
            address: next(),
            value: next(),
            served: 0,
        })?;
    }
    Ok(events)
}

#[derive(Drop)]
pub(crate) struct Session<C: Cable> {
    bench: Bench<C>,
}

impl<C: Cable> Session<C> {
    pub(crate) fn new(cable: C) -> Session<C> {
        Session {
            bench: Bench::new(cable),
        }
    }

    fn moment(&mut self, rt: &(impl Print + AllocGlobal), numbers: &[u32]) -> anyhow::Result<()> {
        let mut events = read_events(rt.alloc(), numbers)?;
        let answer = self.bench.moment(events.as_mut_slice());
        show(rt, answer.map(|()| Served(events.as_slice())))?;
        Ok(())
    }

    // A line is a letter, and the numbers of its call.
    fn call(&mut self, rt: &(impl Print + AllocGlobal), line: &[u8]) -> anyhow::Result<()> {
        let numbers = read_numbers(rt.alloc(), line)?;
        let [a, b, c, d, e]: [u32; 5] = first_numbers(numbers.as_slice());
        let bench = &mut self.bench;
        match line {
            [b'O', ..] => {
                let opening = Opening {
                    start: a,
                    control: b,
                    x: c,
                    r: d,
                    interval: e,
                };
                show_done(rt, bench.open(opening))?
            }
            [b'E', ..] => self.moment(rt, numbers.as_slice())?,
            [b'M', ..] => show_done(rt, bench.moments(a))?,
            [b'P', ..] => show_done(rt, bench.put(a, b, c, d))?,
            [b'G', ..] => show(rt, bench.get(a, b, c))?,
            [b'L', ..] => show_done(rt, bench.load(a, b))?,
            [b'T', ..] => show(rt, bench.take(a))?,
            [b'S' | b'K', ..] if !bench.is_open() => println!(rt; "-")?,
            // a number that names no end stands for B
            [b'S', ..] => rt.println(bench.pins(End::try_from(a).unwrap_or(End::B)))?,
            [b'K', ..] => rt.println(bench.clock())?,
            _ => {}
        }
        Ok(())
    }

    pub(crate) fn run(
        &mut self,
        rt: &(impl Print + AllocGlobal),
        calls: &[Vec<u8>],
    ) -> anyhow::Result<()> {
        for line in calls {
            self.call(rt, line.as_slice())?;
        }
        Ok(())
    }
}
