//! The bytes of a request, as they come.

ghost use Rattle.std.specs.Prelude.{◌≡◌, ◌⊎◌, ◌&&◌, not, [], ◌++◌, true, false, IsTrue, Some, OnOk};
ghost use Rattle.bike_http_request.specs.Received.{Grew};
ghost use Rattle.bike_http_connection.specs.Settled.{IsSettled, IsThere, IsWhole};
ghost use Rattle.std.specs.List.{list_all};
ghost use Rattle.bike_http_connection.specs.Awaiting.{Awaits, KnowsHead, ShowsFeeds, AsksFeed};
ghost use Rattle.bike_http_connection.specs.Awaiting.{shows_feed, is_line_byte};

use crate::connection::Step;
use crate::limits::{MOST_CALLS, PIECE};
use crate::socket::Socket;
use crate::stage::{Stage, stage_of};
use std::alloc::{AllocError, Global};
use std::io::ErrorKind;

/// How many bytes are gathered at most: those of the longest head and of the longest body.
const MOST_BYTES: usize = 24_576;

/// What came of a request so far.
#[derive(Drop)]
pub struct Gathering {
    pub(crate) bytes: Vec<u8>,
    /// What was known of it as they were last looked at.
    stage: Stage,
    /// Whether a line end came since.
    has_line_end: bool,
    /// Whether no more than empty lines came, which stand before a head and are none (RFC 9112, section 2.2).
    is_blank: bool,
    /// Whether nothing more comes.
    pub(crate) is_ended: bool,

    ghost awaits: { Awaits stage has_line_end bytes.items },

    ghost feeds: { ShowsFeeds stage bytes.items },

    ghost blank: { IsTrue is_blank → list_all is_line_byte bytes.items ≡ true },
}

/// Whether no byte stands here but those of line ends.
fn are_line_ends(bytes: &[u8]) -> bool
    ensures { result ≡ list_all is_line_byte bytes.now }
{
    bytes.iter().all(|b| *b == b'\n' || *b == b'\r')
}

impl Gathering {
    /// Nothing came yet, and no memory is taken.
    pub(crate) fn new(alloc: Global) -> Gathering
        ensures { result.bytes.items ≡ [] }
    {
        Gathering {
            bytes: Vec::new(alloc),
            stage: Stage::Head(0),
            has_line_end: false,
            is_blank: true,
            is_ended: false,
        }
    }

    /// Adds bytes that came. The room grows to twice what there is, and not beyond the most.
    pub(crate) fn add(&mut self, bytes: &[u8]) -> Result<(), AllocError>
        ensures { OnOk result (self.new.bytes.items ≡ self.old.bytes.items ++ bytes.now) }
    {
        self.has_line_end |= bytes.contains(&b'\n');
        self.is_blank &= are_line_ends(bytes);
        let length = self.bytes.len();
        let most = MOST_BYTES.saturating_sub(length);
        let room = length.min(most).max(bytes.len());
        self.bytes.reserve_exact(room)?;
        self.bytes.extend_from_slice(bytes)
    }

    /// Whether a line end came since, and not only those of empty lines.
    fn has_line(&self) -> bool
        ensures { result ≡ (self.now.has_line_end && not self.now.is_blank) }
    {
        self.has_line_end && !self.is_blank
    }

    /// Whether a head may have come since the bytes were looked at. Where no line end comes, or none but those of empty
    /// lines, that is once there are twice as many, so that not all are looked at for each that comes.
    fn may_have_head(&self) -> bool
        ensures { IsWhole self.now.bytes.items → IsTrue result ⊎ KnowsHead self.now.stage }
    {
        match self.stage {
            Stage::Head(most) => self.has_line() || self.bytes.len() > most,
            Stage::Body { .. } | Stage::Unreadable => false,
        }
    }

    /// Looks at the bytes where a head may have come. A head that was found is not read again.
    fn look(&mut self)
        ensures found { IsWhole self.new.bytes.items → KnowsHead self.new.stage }
        ensures kept { self.new.bytes.items ≡ self.old.bytes.items }
    {
        if self.may_have_head() {
            self.stage = stage_of(self.bytes.as_slice());
            self.has_line_end = false;
        }
    }

    /// Whether no more is wanted.
    fn is_settled(&mut self) -> bool
        ensures settled { result ≡ true → IsSettled self.new.bytes.items }
        ensures whole { IsWhole self.new.bytes.items → IsTrue result }
        ensures kept { self.new.bytes.items ≡ self.old.bytes.items }
    {
        self.look();
        match self.stage {
            Stage::Head(_) => false,
            Stage::Body { end, .. } => self.bytes.len() >= end,
            Stage::Unreadable => true,
        }
    }

    /// Whether it may ask for a feed, by the path in its head. No other answer is long.
    pub(crate) fn may_ask_feed(&self) -> bool
        ensures shown { result ≡ shows_feed self.now.stage }
        ensures feeds { KnowsHead self.now.stage → AsksFeed self.now.bytes.items → IsTrue result }
    {
        match self.stage {
            Stage::Head(_) => false,
            Stage::Body { may_ask_feed, .. } => may_ask_feed,
            Stage::Unreadable => false,
        }
    }

    /// Reads a piece of what is there; none where more may be there.
    fn read_piece<S: Socket>(&mut self, reader: &mut S) -> Option<Step>
        ensures grew { (result ≡ Some Step.Over → ⊥) → Grew (S.remaining reader.old) (S.remaining reader.new)
            self.old.bytes.items self.new.bytes.items }
        ensures settled { result ≡ Some Step.Settled
            → IsThere self.new.is_ended (S.remaining reader.new) self.new.bytes.items }
        ensures waits { (IsWhole self.old.bytes.items → ⊥) → IsWhole self.new.bytes.items
            → (result ≡ Some Step.Settled) ⊎ (result ≡ Some Step.Over) }
        ensures own { S.input reader.new ≡ S.input reader.old }
        ensures kept { S.taken reader.new ≡ S.taken reader.old }
    {
        let mut piece = [0; PIECE];
        let room = MOST_BYTES.saturating_sub(self.bytes.len()).min(PIECE);
        if room == 0 {
            return Some(Step::Settled);
        }
        match reader.read(&mut piece[..room]) {
            Ok(0) => {
                self.is_ended = true;
                Some(Step::Settled)
            }
            Ok(count) => {
                if self.add(&piece[..count]).is_err() {
                    return Some(Step::Over);
                }
                if self.is_settled() {
                    return Some(Step::Settled);
                }
                None
            }
            Err(error) if error.kind() == ErrorKind::WouldBlock => Some(Step::Waits),
            Err(_) => Some(Step::Over),
        }
    }

    /// Reads what is there, by at most 16 reads, until no more is wanted. It is over where a read fails or memory is
    /// refused. Else all that was read stands behind what came before, and where it is settled the input is at its end,
    /// or what it asks for is known. No more is waited for of a whole request.
    pub fn gather<S: Socket>(&mut self, reader: &mut S) -> Step
        ensures grew { (result ≡ Step.Over → ⊥) → Grew (S.remaining reader.old) (S.remaining reader.new)
            self.old.bytes.items self.new.bytes.items }
        ensures settled { result ≡ Step.Settled
            → IsThere self.new.is_ended (S.remaining reader.new) self.new.bytes.items }
        ensures waits { IsWhole self.new.bytes.items → (result ≡ Step.Settled) ⊎ (result ≡ Step.Over) }
        ensures own { S.input reader.new ≡ S.input reader.old }
        ensures kept { S.taken reader.new ≡ S.taken reader.old }
    {
        if self.is_settled() {
            return Step::Settled;
        }
        for _turn in 0..MOST_CALLS {
            if let Some(step) = self.read_piece(reader) {
                return step;
            }
        }
        Step::GoesOn
    }
}
