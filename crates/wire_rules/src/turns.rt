//! Whose turn it is.

use std::alloc::{AllocError, Global};
use std::collections::VecDeque;

/// Below how many microseconds of a processor on an event it costs little.
const LITTLE: u64 = 1_000;

/// Below how many it costs no more than a modest client's.
const MODEST: u64 = 8_000;

/// For how many microseconds behind an event of one that asks for little it is taken that it may ask again.
const PAUSE: u64 = 20_000;

/// After how many microseconds in which a kind had no turn it has the next one, whatever it used.
const LONGEST: u64 = 1_000_000;

/// How many microseconds a turn counts beside what it cost.
const LEAST: u64 = 10;

/// How many microseconds a kind may have used ahead of the others, however much it was.
const AHEAD: u64 = 1_000_000;

/// The kinds of what waits for its turn. Those of which any wait have the same share of the processor each.
#[derive(Clone, Copy, Debug, PartialEq, Eq)]
pub enum Kind {
    /// Known to ask for little.
    Little,
    /// Not heard of yet, or nothing that asks.
    New,
    /// About to ask for the first time.
    First,
    /// Known to ask for more.
    Modest,
    /// Known to ask for much.
    Much,
}

impl Kind {
    /// The kind of one for whose events the node works so many microseconds each.
    pub fn of_cost(cost: u64) -> Kind {
        if cost < LITTLE {
            Kind::Little
        } else if cost < MODEST {
            Kind::Modest
        } else {
            Kind::Much
        }
    }
}

/// All kinds.
const KINDS: &[Kind] = &[
    Kind::Little,
    Kind::New,
    Kind::First,
    Kind::Modest,
    Kind::Much,
];

/// What waits of one kind, in the order in which it came.
#[derive(Drop)]
struct Line {
    waiting: VecDeque<u32>,
    /// How much the kind used, counted from the same start for all kinds. What it didn't use while nothing of it
    /// waited is counted too.
    used: u64,
    /// When it had its last turn, or began to wait.
    turned: u64,
}

impl Line {
    fn new(alloc: Global) -> Line {
        Line {
            waiting: VecDeque::new(alloc),
            used: 0,
            turned: 0,
        }
    }

    /// A number waits behind the others. Where there is no room for it, it doesn't.
    fn add(&mut self, number: u32, now: u64) {
        if self.waiting.is_empty() {
            self.turned = now;
        }
        let _ = self.waiting.push_back(number);
    }

    /// The first number has its turn.
    fn take(&mut self, now: u64) -> Option<u32> {
        let number = self.waiting.pop_front()?;
        self.turned = now;
        self.used = self.used.saturating_add(LEAST);
        Some(number)
    }

    /// Whether it waited for too long.
    fn is_late(&self, now: u64) -> bool {
        !self.waiting.is_empty() && now.saturating_sub(self.turned) >= LONGEST
    }
}

/// What waits for its turn, by its number. Of the kinds that wait the one has the next turn that used least of the
/// processor, and of a kind the one that came first. While only others wait, and one that asks for little was
/// served a moment ago and its kind used less than theirs, nobody has a turn: it may ask again. A half of that time
/// counts as used.
///
/// Times are in microseconds, and go by as those say that are given.
#[derive(Drop)]
pub struct Turns {
    little: Line,
    new: Line,
    first: Line,
    modest: Line,
    much: Line,
    /// How much a kind had used whose turn it was. Less is nobody's due.
    reached: u64,
    /// The kind that had the last turn.
    served: Kind,
    /// When an event of one that asks for little was done last.
    asked: Option<u64>,
    /// Since when nobody has a turn though others wait.
    paused: Option<u64>,
}

impl Turns {
    /// Nothing waits, and there is no room.
    pub fn new(alloc: Global) -> Turns {
        Turns {
            little: Line::new(alloc),
            new: Line::new(alloc),
            first: Line::new(alloc),
            modest: Line::new(alloc),
            much: Line::new(alloc),
            reached: 0,
            served: Kind::New,
            asked: None,
            paused: None,
        }
    }

    /// Makes room for so many numbers.
    pub fn reserve(&mut self, count: usize) -> Result<(), AllocError> {
        for kind in KINDS {
            let line = self.line_mut(*kind);
            let lacking = count.saturating_sub(line.waiting.len());
            line.waiting.reserve(lacking)?;
        }
        Ok(())
    }

    /// How many wait.
    pub fn len(&self) -> usize {
        let mut count = 0usize;
        for kind in KINDS {
            count = count.saturating_add(self.line(*kind).waiting.len());
        }
        count
    }

    /// Whether nothing waits.
    pub fn is_empty(&self) -> bool {
        self.len() == 0
    }

    /// Whether a number waits.
    pub fn contains(&self, number: u32) -> bool {
        for kind in KINDS {
            if self.line(*kind).waiting.contains(&number) {
                return true;
            }
        }
        false
    }

    /// A number of this kind waits from now on, unless it does already. There has to be room for it.
    pub fn add(&mut self, number: u32, kind: Kind, now: u64) {
        if self.contains(number) {
            return;
        }
        let is_there = !self.line(kind).waiting.is_empty() || self.is_awaited(kind, now);
        let reached = self.reached;
        let line = self.line_mut(kind);
        if !is_there {
            line.used = line.used.max(reached);
        }
        line.add(number, now);
    }

    /// In how many microseconds somebody has a turn, where anybody waits.
    pub fn due(&self, now: u64) -> Option<u64> {
        let first = self.first(now)?;
        if !self.line(first).waiting.is_empty() {
            return Some(0);
        }
        let until = self.asked.unwrap_or(0).saturating_add(PAUSE);
        let lead = self.least_waiting().saturating_sub(self.line(first).used);
        Some(until.saturating_sub(now).min(lead.saturating_mul(2)))
    }

    /// The number that has its turn now, where any has.
    pub fn next(&mut self, now: u64) -> Option<u32> {
        if let Some(since) = self.paused {
            let pause = (now.saturating_sub(since) / 2).max(1);
            self.little.used = self.little.used.saturating_add(pause);
            self.paused = None;
        }
        let first = self.first(now)?;
        let (is_late, used) = (self.line(first).is_late(now), self.line(first).used);
        let number = self.line_mut(first).take(now);
        if number.is_none() {
            self.paused = Some(now);
            return None;
        }
        if !is_late {
            self.reached = self.reached.max(used);
        }
        self.served = first;
        number
    }

    /// What had the last turn is done with it, and the node worked so many microseconds for it.
    pub fn settle(&mut self, work: u64, now: u64) {
        let most = self.reached.saturating_add(AHEAD);
        let line = self.line_mut(self.served);
        line.used = line.used.saturating_add(work).min(most);
        if self.served == Kind::Little {
            self.asked = Some(now);
        }
    }

    fn line(&self, kind: Kind) -> &Line {
        match kind {
            Kind::Little => &self.little,
            Kind::New => &self.new,
            Kind::First => &self.first,
            Kind::Modest => &self.modest,
            Kind::Much => &self.much,
        }
    }

    fn line_mut(&mut self, kind: Kind) -> &mut Line {
        match kind {
            Kind::Little => &mut self.little,
            Kind::New => &mut self.new,
            Kind::First => &mut self.first,
            Kind::Modest => &mut self.modest,
            Kind::Much => &mut self.much,
        }
    }

    /// Whether one of this kind was served so lately that it may ask again at once.
    fn is_awaited(&self, kind: Kind, now: u64) -> bool {
        let is_recent = |asked: u64| now.saturating_sub(asked) < PAUSE;
        kind == Kind::Little && self.asked.is_some_and(is_recent)
    }

    /// The kind that used least, of those of which any wait.
    fn least_waiting(&self) -> u64 {
        let mut least = u64::MAX;
        for kind in KINDS {
            let line = self.line(*kind);
            if !line.waiting.is_empty() {
                least = least.min(line.used);
            }
        }
        least
    }

    /// The kind that is to have a turn, where any waits: the one that waited for longest of those that did so for
    /// too long, else the one that used least of those of which any wait or are awaited.
    fn first(&self, now: u64) -> Option<Kind> {
        if self.is_empty() {
            return None;
        }
        let mut first: Option<(Kind, (u8, u64))> = None;
        for kind in KINDS {
            let line = self.line(*kind);
            let is_there = !line.waiting.is_empty() || self.is_awaited(*kind, now);
            let place = if line.is_late(now) {
                (0, line.turned)
            } else {
                (1, line.used)
            };
            if is_there && first.is_none_or(|(_, before)| place < before) {
                first = Some((*kind, place));
            }
        }
        first.map(|(kind, _)| kind)
    }
}
