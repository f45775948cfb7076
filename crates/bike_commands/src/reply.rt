//! Replies, and their texts.

ghost use Rattle.std.specs.Prelude.{◌≡◌, ◌++◌, ◌∷◌, ◌+◌, ◌≤◌, codes, decimal, length, IfSome, Some};
ghost use Rattle.std.specs.Fmt.{signed_decimal};
ghost use Rattle.arrayvec.specs.ArrayString.{array_string_len};
ghost use Rattle.bike_commands.specs.declared.reply.Reply.{Reply};
ghost use Rattle.bike_commands.specs.Replies.{reply_text, IsReply};
ghost use Rattle.bike_commands.specs.ReplyReaders.{done_at, balance_at, started_at, ended_at, ordered_at, named_at};
ghost use Rattle.bike_commands.specs.ReplyReaders.{refused_at, reply_by, reply_at};
ghost use Rattle.bike_commands.specs.Refusals.{number_of, name_of, refusal_of};

use crate::refusal::Refusal;
use arrayvec::ArrayString;
use bike_fields::{BicycleNumber, OrderNumber, RentalNumber};
use bike_fixed::{Within, signed_text};
use bike_texts::{Fare, Fields};
use itoa::Buffer;

/// Room in bytes for every reply: the longest word before two numbers is `fare`, and a number of
/// 64 bits has at most 20 characters.
pub const REPLY_LENGTH: usize = 48;

/// What a request is answered.
#[derive(Clone, Copy, Debug, PartialEq, Eq)]
pub enum Reply {
    /// It is done.
    Done,
    /// The rider's balance after it, in hundredths of the currency.
    Balance(i64),
    /// A rental was opened: its number and its bicycle's.
    Started {
        rental: RentalNumber,
        bike: BicycleNumber,
    },
    /// A rental was closed: its fare, and the rider's balance after it in hundredths.
    Ended {
        fare: Fare,
        balance: i64,
    },
    /// An order of this number was opened.
    Ordered {
        order: OrderNumber,
    },
    /// It is refused, and nothing changed.
    Refused(Refusal),
}

fn push_number<const LO: u32, const HI: u32, K>(
    out: &mut ArrayString<REPLY_LENGTH>,
    number: &Within<LO, HI, K>,
)
    requires room { array_string_len out.old + 11 ≤ 48 }
    ensures bytes { out.new.bytes ≡ out.old.bytes ++ 9 ∷ decimal number.now }
    ensures length { array_string_len out.new ≤ array_string_len out.old + 11 }
{
    let mut buffer = Buffer::new();
    out.push('\t');
    out.push_str(buffer.format(number.get()));
}

fn push_signed(out: &mut ArrayString<REPLY_LENGTH>, number: &i64)
    requires room { array_string_len out.old + 21 ≤ 48 }
    ensures bytes { out.new.bytes ≡ out.old.bytes ++ 9 ∷ signed_decimal number.now }
    ensures length { array_string_len out.new ≤ array_string_len out.old + 21 }
{
    out.push('\t');
    out.push_str(signed_text(*number).as_str());
}

fn push_refusal(out: &mut ArrayString<REPLY_LENGTH>, refusal: Refusal)
    requires room { array_string_len out.old + 31 ≤ 48 }
    ensures { out.new.bytes ≡ out.old.bytes ++ 9 ∷ decimal (number_of refusal) ++ 9 ∷ name_of refusal }
{
    let mut buffer = Buffer::new();
    out.push('\t');
    out.push_str(buffer.format(refusal.number()));
    out.push('\t');
    out.push_str(refusal.name());
}

#[tactic(auto, unfolding(crate::specs::ReplyReaders::balance_at))]
fn read_balance(mut fields: Fields) -> Option<Reply>
    ensures { result ≡ balance_at fields.entry }
{
    let balance = fields.signed()?;
    fields.end()?;
    Some(Reply::Balance(balance))
}

#[tactic(auto, unfolding(crate::specs::ReplyReaders::started_at))]
fn read_started(mut fields: Fields) -> Option<Reply>
    ensures { result ≡ started_at fields.entry }
{
    let rental = fields.number()?;
    let bike = fields.number()?;
    fields.end()?;
    Some(Reply::Started { rental, bike })
}

#[tactic(auto, unfolding(crate::specs::ReplyReaders::ended_at))]
fn read_ended(mut fields: Fields) -> Option<Reply>
    ensures { result ≡ ended_at fields.entry }
{
    let fare = fields.fare()?;
    let balance = fields.signed()?;
    fields.end()?;
    Some(Reply::Ended { fare, balance })
}

#[tactic(auto, unfolding(crate::specs::ReplyReaders::ordered_at))]
fn read_ordered(mut fields: Fields) -> Option<Reply>
    ensures { result ≡ ordered_at fields.entry }
{
    let order = fields.number()?;
    fields.end()?;
    Some(Reply::Ordered { order })
}

#[tactic(auto, unfolding(crate::specs::ReplyReaders::named_at))]
fn read_named(refusal: Refusal, mut fields: Fields) -> Option<Reply>
    ensures { result ≡ named_at refusal fields.entry }
{
    fields.word(refusal.name())?;
    fields.end()?;
    Some(Reply::Refused(refusal))
}

fn refusal_with(number: Within<1, 39>) -> Option<Refusal>
    ensures { result ≡ refusal_of number }
{
    Refusal::from_number(number.get())
}

#[tactic(auto, unfolding(crate::specs::ReplyReaders::refused_at))]
fn read_refused(mut fields: Fields) -> Option<Reply>
    ensures { result ≡ refused_at fields.entry }
{
    let number = fields.number()?;
    let refusal = refusal_with(number)?;
    read_named(refusal, fields)
}

#[tactic(auto, unfolding(crate::specs::ReplyReaders::done_at))]
fn read_done(fields: Fields) -> Option<Reply>
    ensures { result ≡ done_at fields.entry }
{
    fields.end()?;
    Some(Reply::Done)
}

#[tactic(auto, unfolding(crate::specs::ReplyReaders::reply_by))]
fn read_kind(word: &str, fields: Fields) -> Option<Reply>
    ensures { result ≡ reply_by word.now fields.entry }
{
    match word {
        "ok" => read_done(fields),
        "balance" => read_balance(fields),
        "rental" => read_started(fields),
        "fare" => read_ended(fields),
        "order" => read_ordered(fields),
        "refused" => read_refused(fields),
        _ => None,
    }
}

#[tactic(auto, unfolding(crate::specs::ReplyReaders::reply_at))]
fn read_reply(mut fields: Fields) -> Option<Reply>
    ensures { result ≡ reply_at fields.entry }
{
    let word = fields.part()?;
    read_kind(word, fields)
}

impl Reply {
    /// The answer line without its LF: `ok`, `balance⇥BALANCE`, `rental⇥RENTAL⇥BIKE`, `fare⇥FARE⇥BALANCE`,
    /// `order⇥ORDER` or `refused⇥NUMBER⇥NAME`, where `⇥` is a TAB. Fares and balances are in hundredths.
    #[tactic(auto, unfolding(bike_texts::specs::Fields::fields_text))]
    pub fn text(&self) -> ArrayString<REPLY_LENGTH>
        ensures { result.bytes ≡ reply_text self.now }
    {
        let mut out = ArrayString::new();
        match self {
            Reply::Done => out.push_str("ok"),
            Reply::Balance(balance) => {
                out.push_str("balance");
                push_signed(&mut out, balance);
            }
            Reply::Started { rental, bike } => {
                out.push_str("rental");
                push_number(&mut out, rental);
                push_number(&mut out, bike);
            }
            Reply::Ended { fare, balance } => {
                out.push_str("fare");
                push_signed(&mut out, &fare.hundredths());
                push_signed(&mut out, balance);
            }
            Reply::Ordered { order } => {
                out.push_str("order");
                push_number(&mut out, order);
            }
            Reply::Refused(refusal) => {
                out.push_str("refused");
                push_refusal(&mut out, *refusal);
            }
        }
        out
    }

    /// The reply whose text this is. None where it is no reply's.
    pub fn read(text: &str) -> Option<Reply>
        ensures found { IfSome result (λ r. (text.now ≡ reply_text r) × IsReply r) }
        ensures only { (r : Reply) → IsReply r → text.now ≡ reply_text r → result ≡ Some r }
    {
        read_reply(Fields::of(text))
    }
}
