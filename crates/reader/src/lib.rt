// The records of a sheet: one by its number, and those of a chain one after the other.
#![tactic(auto)]

ghost use Rattle.std.specs.Prelude.{◌≡◌, ◌≤◌, nat_lt, length};
ghost use Rattle.std.specs.Iterator.{YieldsFirst, item_count};
ghost use Rattle.sheet.specs.Sheet as S;
ghost use Rattle.reader.specs.Reading as R;

use sheet::{kind_at, next_at, one_at, place_of, word_at};

// A record: its kind, its byte 1, and the words from byte 4 on, by their places, since each kind has its own use for them.
#[derive(Clone, Copy)]
pub struct Record {
    pub kind: u8,
    pub one: u8,
    pub word4: u16,
    pub word6: u16,
    pub word8: u16,
}

// Record k of the sheet. A chain has the sheet with it; a single read takes the sheet and the number.
pub fn record_at(s: &[u8], k: u16) -> Record
    ensures { result ≡ R.record_of s.now k }
{
    let at = place_of(k);
    Record {
        kind: kind_at(s, k),
        one: one_at(s, k),
        word4: word_at(s, at + 4),
        word6: word_at(s, at + 6),
        word8: word_at(s, at + 8),
    }
}

// The records of a chain: the sheet, the record that comes next, and how many may come.
#[derive(Drop)]
pub struct Chain<'a> {
    sheet: &'a [u8],
    at: u16,
    left: usize,
}

impl<'a> Chain<'a> {
    // The chain from record `first` on. It gives one record more than the sheet has at most: a longer one meets a record
    // twice or leaves the sheet.
    #[tactic(auto, using(sheet::specs::Chains::chain_within), unfolding(crate::specs::Reading::chain_rest))]
    pub fn new(sheet: &'a [u8], first: u16) -> Chain<'a>
        ensures list { R.chain_rest result ≡ S.chain sheet.now first }
        ensures short { length (R.chain_rest result) ≤ 65536 }
    {
        let left = usize::from(word_at(sheet, 2)) + 1;
        Chain {
            sheet,
            at: first,
            left,
        }
    }

    // Whether a record is still to come.
    pub fn goes_on(&self) -> bool
        ensures { result ≡ nat_lt 0 (length (R.chain_rest self.now)) }
    {
        self.at != 0 && self.left != 0
    }
}

#[tactic(auto, using(crate::proofs::Laws::rest_end, crate::proofs::Laws::rest_cut, crate::proofs::Laws::rest_step))]
impl<'a> Iterator for Chain<'a> {
    type Item = u16;

    ghost next_gives = { YieldsFirst R.chain_rest };

    ghost remaining = { item_count R.chain_rest };

    fn next(&mut self) -> Option<u16> {
        if self.at == 0 || self.left == 0 {
            return None;
        }
        let k = self.at;
        self.at = next_at(self.sheet, k);
        self.left -= 1;
        Some(k)
    }
}
