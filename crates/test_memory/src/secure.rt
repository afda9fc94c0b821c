//! Sessions under TLS over memory.

mod again;
mod data_calls;
mod scene;
