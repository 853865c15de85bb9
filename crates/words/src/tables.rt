// Tables: rows of a name and what it stands for.
ghost use Rattle.std.specs.Prelude.{◌≡◌};
ghost use Rattle.words.specs.Tables.{row_from, epoch_row};

// What stands in the row that a word names.
pub fn row_of<T: Copy>(word: &[u8], table: &[(&[u8], T)]) -> Option<T>
    ensures { result ≡ row_from word.now table.now }
{
    for row in table {
        if word == row.0 {
            return Some(row.1);
        }
    }
    None
}

// The epochs that have names.
#[derive(Clone, Copy)]
pub enum NamedEpoch {
    Monotonic,
    Gps,
    Gst,
    Bdt,
    Tai1958,
    Tai1972,
}

const EPOCHS: [(&[u8], NamedEpoch); 6] = [
    (b"monotonic", NamedEpoch::Monotonic),
    (b"gps", NamedEpoch::Gps),
    (b"gst", NamedEpoch::Gst),
    (b"bdt", NamedEpoch::Bdt),
    (b"tai1958", NamedEpoch::Tai1958),
    (b"tai1972", NamedEpoch::Tai1972),
];

// The epoch that a word names.
#[tactic(auto, unfolding(crate::specs::Tables::row_from, crate::specs::Tables::epoch_row))]
pub fn epoch_row(word: &[u8]) -> Option<NamedEpoch>
    ensures { result ≡ epoch_row word.now }
{
    row_of(word, &EPOCHS)
}
