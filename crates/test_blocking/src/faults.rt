//! Tests in which one call of a connection or of the transport fails: each in its turn, until a run meets no failure.
//!
//! What the failing call was decides what is due: the result, and what it leaves.

mod rows;
mod runs;
mod scene;
