// One upgrade of a ladder, kind 40: its rows and streams, made from the case's seed. oracle/README.md has the rule.
ghost use Rattle.std.specs.Prelude.{◌≤◌};

use progressive_encoder::Written;
use replay_input::component::{self, Component, Words};
use replay_input::number;

// The two streams of a component, each at the start of its buffer.
#[derive(Drop)]
pub struct Streams {
    srl: [u8; 16384],
    raw: [u8; 16384],
    lengths: Written,
}

impl Streams {
    pub const EMPTY: Streams = Streams {
        srl: [0; 16384],
        raw: [0; 16384],
        lengths: Written { srl: 0, raw: 0 },
    };

    pub fn srl(&self) -> &[u8] {
        &self.srl[..self.lengths.srl.min(16384)]
    }

    pub fn raw(&self) -> &[u8] {
        &self.raw[..self.lengths.raw.min(16384)]
    }

    // Makes any bytes: those that follow from a word.
    fn fill_any(&mut self, word: u64, lengths: Written) {
        let mut words = Words(word);
        fill(&mut words, &mut self.srl[..lengths.srl.min(16384)]);
        fill(&mut words, &mut self.raw[..lengths.raw.min(16384)]);
        self.lengths = lengths;
    }

    // Makes them no longer than so.
    fn cut(&mut self, most: Written) {
        self.lengths.srl = self.lengths.srl.min(most.srl);
        self.lengths.raw = self.lengths.raw.min(most.raw);
    }
}

// Makes bytes of the words that follow.
fn fill(words: &mut Words, out: &mut [u8]) {
    for (x, word) in out.iter_mut().zip(words) {
        *x = (word % 256) as u8;
    }
}

// What an upgrade begins from: the layout, the positions, the coefficients and the signs of the tile.
#[derive(Clone, Copy)]
pub struct Start<'a> {
    pub extrapolate: bool,
    pub positions: [u8; 30],
    pub coefficients: &'a [i16; 12288],
    pub signs: &'a [i8; 12288],
}

impl Start<'_> {
    // The positions of the component with a number.
    fn row(self, k: u8) -> [u8; 10] {
        number::row_at(&self.positions, 10 * usize::from(k))
    }
}

// A position of an upgrade, by the one before it and a number below 16.
fn position(sort: u8, before: u8, n: u8) -> u8 {
    let mask = sort % 16;
    let some = n & mask;
    match sort / 16 {
        0 => before.saturating_sub(some),
        1 => before.saturating_add(some).min(15),
        2 => n,
        _ => mask,
    }
}

// Makes the positions of an upgrade from those before it.
fn move_row(sort: u8, mut word: u64, row: &mut [u8; 10]) {
    for p in row.iter_mut() {
        *p = position(sort, *p, (word % 16) as u8);
        word /= 16;
    }
}

// An upgrade, by the case, the four bytes that it has there and its number.
#[derive(Clone, Copy)]
pub struct Upgrade<'a> {
    pub case: &'a [u8],
    pub fields: [u8; 4],
    pub number: u8,
}

impl Upgrade<'_> {
    // The word of a number: 0 to 2 for a component, 3 for the upgrade itself.
    fn word(self, k: u8) -> u64 {
        let n = 4 * (u64::from(self.number) + 1) + u64::from(k);
        component::next(component::seed(self.case, n))
    }

    // The row that it gives to the component with a number. It may have a number above 15 in one of its rows.
    fn row(self, k: u8, before: [u8; 10]) -> [u8; 10] {
        let [sort, place, _, _] = self.fields;
        let mut row = before;
        move_row(sort, self.word(k), &mut row);
        let high = usize::from(place).checked_sub(10 * usize::from(k) + 1);
        if let Some(p) = high.and_then(|b| row.get_mut(b)) {
            *p = (16 + self.word(3) / 256 % 256 % 240) as u8;
        }
        row
    }

    // Its rows, from the tile's positions.
    pub fn rows(self, start: Start<'_>) -> [[u8; 10]; 3] {
        [0, 1, 2].map(|k| self.row(k, start.row(k)))
    }

    // Its quality byte.
    pub fn quality(self) -> u8 {
        (self.word(3) % 256) as u8
    }

    // Makes the streams that the port writes from a component of the tile to its target; they stay empty if it refuses.
    fn write(self, k: u8, start: Start<'_>, curr: [u8; 10], made: &mut Streams)
        requires { k ≤ 2 }
    {
        let prev = start.row(k);
        let seed = component::seed(self.case, u64::from(k));
        let mut component = Component::ZEROS;
        component.fill_rows(self.case, seed, start.extrapolate, prev, curr);
        let from = 4096 * usize::from(k);
        let to = from + 4096;
        let coefficients = start.coefficients;
        let signs = start.signs;
        let answer = pass_by_rule::write(
            false,
            &component.targets,
            &coefficients[from..to],
            prev,
            curr,
            &signs[from..to],
            start.extrapolate,
            &mut made.srl,
            &mut made.raw,
        );
        made.lengths = answer.unwrap_or(made.lengths);
    }

    // Makes the streams of the component with a number, by their sort, of empty ones.
    fn fill(self, k: u8, start: Start<'_>, curr: [u8; 10], made: &mut Streams)
        requires { k ≤ 2 }
    {
        let [_, _, sorts, shift] = self.fields;
        let word = component::next(self.word(k));
        let most = Written {
            srl: usize::from(component::shifted((word % 65536) as u16, shift)),
            raw: usize::from(component::shifted((word / 65536 % 65536) as u16, shift)),
        };
        match (sorts >> (2 * k)) % 4 {
            0 => {}
            1 => self.write(k, start, curr, made),
            2 => {
                self.write(k, start, curr, made);
                made.cut(most);
            }
            _ => made.fill_any(word, most),
        }
    }

    // Makes its streams, of each component, of empty ones.
    pub fn fill_streams(
        self,
        start: Start<'_>,
        rows: [[u8; 10]; 3],
        y: &mut Streams,
        cb: &mut Streams,
        cr: &mut Streams,
    ) {
        self.fill(0, start, rows[0], y);
        self.fill(1, start, rows[1], cb);
        self.fill(2, start, rows[2], cr);
    }
}
