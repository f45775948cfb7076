//! An accepted request as texts, and a page of such.

ghost use Rattle.std.specs.Prelude.{◌≡◌};

use bike_fixed::Moment;
use std::marker::Model;

/// An accepted request.
#[derive(Drop)]
pub struct RequestInfo {
    /// Its number: accepted requests are numbered 1, 2, 3, ..
    pub number: u64,
    /// The operator's moment after it.
    pub moment: Moment,
    /// Who sent it, as a caller is spelled: `office`, `rider:17`.
    pub caller: String,
    /// The key under which it was sent.
    pub key: String,
    /// The command's text.
    pub command: String,
    /// The text of the reply that it was given.
    pub reply: String,
}

impl Model for RequestInfo {
    ghost use Rattle.std.specs.Prelude.{string_bytes};
    ghost use Rattle.bike_operator.specs.Requests.{RequestTexts};

    ghost Value = { RequestTexts };

    ghost view = { λ a. record {
      number = a.number;
      moment = a.moment;
      caller = string_bytes a.caller;
      key = string_bytes a.key;
      command = string_bytes a.command;
      reply = string_bytes a.reply;
    } };
}

/// Accepted requests, in order.
#[derive(Drop)]
pub struct RequestPage {
    requests: Vec<RequestInfo>,
}

impl Model for RequestPage {
    ghost use Rattle.std.specs.Prelude.{List};
    ghost use Rattle.bike_operator.specs.Requests.{RequestTexts};

    ghost Value = { List RequestTexts };

    ghost view = { λ a. a.requests.items };
}

impl RequestPage {
    /// A page of these.
    pub fn new(requests: Vec<RequestInfo>) -> RequestPage
        ensures { result ≡ requests.items }
    {
        RequestPage { requests }
    }

    /// The requests of the page.
    pub fn requests(&self) -> &[RequestInfo]
        ensures { result.now ≡ self.now }
    {
        self.requests.as_slice()
    }
}
