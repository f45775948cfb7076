//! One exchange of HTTP/1.1 over a desk: a request is read, the desk is asked, and the answer is written.
//!
//! What is answered is a function of the input's bytes, the operator for which the desk stands and the moment. Once
//! an answer with status 200 is written, the desk and all that a crash may leave stand for the operator after
//! the request. What an exchange is handed, `Routes`, is passed on.
#![tactic(auto)]

mod exchange;
mod laws;
mod respond;
mod rows;

pub use bike_http_head::Routes;
pub use exchange::{ServeFault, Served, serve_one};
pub use laws::answered_once;
