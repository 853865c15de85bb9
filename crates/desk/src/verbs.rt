// The verbs, and the answers that are said in one form.
ghost use Rattle.std.specs.Prelude.{◌≡◌, ◌≤◌, ◌≢◌, length};
ghost use Rattle.words.specs.Places.{kinds_of, tail_of};
ghost use Rattle.answers.specs.Said.{said_text};
ghost use Rattle.desk.specs.declared.verbs.Verb.TheVariants.{Print, Line, ReadHex};
ghost use Rattle.desk.specs.Verbs.{verb_of, asked_by, answer_of};

use answers::{Said, answered};
use counts::{LeapOffset, TaiTime, UnixSeconds};
use decimals::skip;
use entries::given::{duration_at, epoch_word, time_at};
use errors::Refusal;
use reader::from_str;
use texts::hex::unhex;
use words::kinds::{Kind, Tail};
use words::tables::row_of;
use words::values::value_at;
use words::words::{rest_at, word_at};

#[derive(Clone, Copy)]
pub enum Verb {
    Print,
    Line,
    New,
    Date,
    Unix,
    ToUnix,
    Epoch,
    Add,
    Sub,
    Since,
    Compare,
    Read,
    ReadHex,
}

const VERBS: [(&[u8], Verb); 13] = [
    (b"print", Verb::Print),
    (b"line", Verb::Line),
    (b"new", Verb::New),
    (b"date", Verb::Date),
    (b"unix", Verb::Unix),
    (b"to-unix", Verb::ToUnix),
    (b"epoch", Verb::Epoch),
    (b"add", Verb::Add),
    (b"sub", Verb::Sub),
    (b"since", Verb::Since),
    (b"compare", Verb::Compare),
    (b"read", Verb::Read),
    (b"read-hex", Verb::ReadHex),
];

// The verb that a word is.
#[tactic(auto, unfolding(words::specs::Tables::row_from, crate::specs::Verbs::verb_of))]
pub(crate) fn verb_of(word: &[u8]) -> Option<Verb>
    ensures { result ≡ verb_of word.now }
{
    row_of(word, &VERBS)
}

// The kinds of the words behind a verb.
pub(crate) fn kinds(verb: Verb) -> &'static [Kind]
    ensures { result.now ≡ kinds_of (asked_by verb) }
{
    match verb {
        Verb::Print => &[Kind::Epoch, Kind::I64, Kind::U32, Kind::Precision],
        Verb::Line => &[
            Kind::Epoch,
            Kind::I64,
            Kind::U32,
            Kind::Precision,
            Kind::U64,
            Kind::Hex,
        ],
        Verb::New => &[Kind::I64, Kind::U32],
        Verb::Date => &[
            Kind::Epoch,
            Kind::I32,
            Kind::U8,
            Kind::U8,
            Kind::U8,
            Kind::U8,
            Kind::U8,
            Kind::U32,
        ],
        Verb::Unix => &[Kind::Epoch, Kind::I64, Kind::U32, Kind::I64],
        Verb::ToUnix => &[Kind::Epoch, Kind::I64, Kind::U32, Kind::I64],
        Verb::Epoch => &[Kind::Epoch, Kind::Epoch, Kind::I64, Kind::U32],
        Verb::Add => &[Kind::I64, Kind::U32, Kind::U64, Kind::U32],
        Verb::Sub => &[Kind::I64, Kind::U32, Kind::U64, Kind::U32],
        Verb::Since => &[Kind::I64, Kind::U32, Kind::I64, Kind::U32],
        Verb::Compare => &[Kind::I64, Kind::U32, Kind::I64, Kind::U32],
        Verb::Read => &[Kind::Epoch],
        Verb::ReadHex => &[Kind::Epoch, Kind::Hex],
    }
}

// What stands behind those words.
pub(crate) fn tail(verb: Verb) -> Tail
    ensures { result ≡ tail_of (asked_by verb) }
{
    match verb {
        Verb::Read => Tail::Rest,
        _ => Tail::End,
    }
}

fn read_hex(s: &[u8]) -> Result<Said, Refusal>
    requires { length s.now ≤ 65535 }
    ensures { said_text result ≡ answer_of ReadHex s.now }
{
    let mut bytes = [0u8; 32768];
    let n = unhex(word_at(s, 1), &mut bytes);
    answered(from_str(&bytes[..n], epoch_word(s, 0)))
}

// The answer of a verb that is not print or line.
pub(crate) fn said_of(verb: Verb, s: &[u8]) -> Result<Said, Refusal>
    requires is_said { (verb ≢ Print) × (verb ≢ Line) }
    requires short { length s.now ≤ 65535 }
    ensures { said_text result ≡ answer_of verb s.now }
{
    match verb {
        Verb::Print | Verb::Line => unreachable!(),
        Verb::New => answered(TaiTime::new(value_at(s, 0), value_at(s, 1))),
        Verb::Date => answered(TaiTime::try_from_date_time(
            epoch_word(s, 0),
            value_at(s, 1),
            value_at(s, 2),
            value_at(s, 3),
            value_at(s, 4),
            value_at(s, 5),
            value_at(s, 6),
            value_at(s, 7),
        )),
        Verb::Unix => answered(TaiTime::try_from_unix_timestamp(
            epoch_word(s, 0),
            UnixSeconds(value_at(s, 1)),
            value_at(s, 2),
            LeapOffset(value_at(s, 3)),
        )),
        Verb::ToUnix => {
            answered(time_at(s, 1).as_unix_secs(epoch_word(s, 0), LeapOffset(value_at(s, 3))))
        }
        Verb::Epoch => answered(time_at(s, 2).to_tai_time(epoch_word(s, 0), epoch_word(s, 1))),
        Verb::Add => answered(time_at(s, 0).checked_add(duration_at(s, 2))),
        Verb::Sub => answered(time_at(s, 0).checked_sub(duration_at(s, 2))),
        Verb::Since => answered(time_at(s, 0).checked_duration_since(time_at(s, 2))),
        Verb::Compare => answered(time_at(s, 0).cmp(time_at(s, 2))),
        Verb::Read => answered(from_str(skip(rest_at(s, 1), 1), epoch_word(s, 0))),
        Verb::ReadHex => read_hex(s),
    }
}
