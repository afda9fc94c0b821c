//! The control connection: replies delivered whole and in order, commands sent as one line each.
//!
//! `channel` holds what both directions need. Inwards, `read_loop` takes byte after byte, `sought` says what for: a
//! reply (`reply_buffer`, with the rules of its lines in `grammar`, and what lenient replies have besides in `lenient`) or a single line (`line_buffer`); the result is an
//! `Outcome`, which `expected_replies` and `single_lines` turn into what a caller wants. Outwards, a command becomes a
//! `WireLine`, the only thing that can be sent, and stands in the `outbox` until all of it went out (`sends`).
//!
//! Each is polled. A blocking call is the same poll over a connection that never waits.

mod ahead;
mod broken;
mod channel;
mod ends;
mod expected_replies;
mod expected_statuses;
mod feeding;
mod form;
pub(crate) mod grammar;
pub(crate) mod lenient;
mod line_buffer;
mod outbox;
mod outcome;
mod read_loop;
mod readiness;
mod reply_buffer;
mod rule;
mod sends;
mod single_lines;
mod sought;
mod wire_line;

pub use broken::Broken;
pub use channel::ControlChannel;
pub use expected_statuses::{expected_reply, is_among};
pub use form::{ReplyForm, form_of};
pub use outcome::Outcome;
pub use readiness::ask_channel;
pub use reply_buffer::REPLY_LIMIT;
pub use rule::ReplyRule;
pub use wire_line::WireLine;
