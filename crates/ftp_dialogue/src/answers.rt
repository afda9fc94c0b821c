//! The answers that the text of a reply gives.
//!
//! A reply of an accepted status may still not hold what was asked for: then the answer is an error, and the session
//! goes on. `ftp_calls` reads the texts.

ghost use Rattle.std.specs.Prelude.{◌≡◌, IfOk};
ghost use Rattle.ftp_calls.specs.Answers.{features_in, path_of, second_line_of, size_of};
ghost use Rattle.ftp_calls.specs.Times.{time_of};
ghost use Rattle.ftp_calls.specs.Exchanges.{Lists, Sizes, Texts, Times};
ghost use Rattle.ftp_dialogue.specs.Dialogue.{features_answer, line_answer, path_answer, size_answer, time_answer};
ghost use Rattle.ftp_dialogue.specs.Steps.Stages.{AnswersKind};

use super::Answer;
use ftp_base::encoding::Encoding;
use ftp_base::types::{FtpError, Response};
use ftp_calls::answers::{read_features, read_path, read_second_line, read_size, read_time};
use std::alloc::{AllocError, Global};

/// The path between the quotes of a reply; `UnexpectedResponse` where there are fewer than two.
pub fn path_answer<E: Encoding>(
    alloc: Global,
    encoding: &E,
    reply: Response,
) -> Result<Answer, AllocError>
    ensures answer { IfOk result (λ answer. answer ≡
        path_answer reply (path_of (E.decoded encoding.now) reply.body)) }
    ensures kind { IfOk result (AnswersKind Texts) }
{
    match read_path(alloc, reply.body.as_slice(), encoding)? {
        Some(path) => Ok(Answer::Text(path)),
        None => Ok(Answer::Fault(FtpError::UnexpectedResponse(reply))),
    }
}

/// The second line of a reply; `BadResponse` where it is absent or empty.
pub fn line_answer<E: Encoding>(
    alloc: Global,
    encoding: &E,
    reply: &Response,
) -> Result<Answer, AllocError>
    ensures answer { IfOk result (λ answer. answer ≡
        line_answer (second_line_of (E.decoded encoding.now) reply.now.body)) }
    ensures kind { IfOk result (AnswersKind Texts) }
{
    match read_second_line(alloc, reply.body.as_slice(), encoding)? {
        Some(line) => Ok(Answer::Text(line)),
        None => Ok(Answer::Fault(FtpError::BadResponse)),
    }
}

/// The time in a reply; `BadResponse` where it holds none.
pub fn time_answer(reply: &Response) -> Answer
    ensures answer { result ≡ time_answer (time_of reply.now.body) }
    ensures kind { AnswersKind Times result }
{
    match read_time(reply.body.as_slice()) {
        Some(time) => Answer::Time(time),
        None => Answer::Fault(FtpError::BadResponse),
    }
}

/// The number of bytes in a reply; `BadResponse` where it holds none.
pub fn size_answer(reply: &Response) -> Answer
    ensures answer { result ≡ size_answer (size_of reply.now.body) }
    ensures kind { AnswersKind Sizes result }
{
    match read_size(reply.body.as_slice()) {
        Some(size) => Answer::Size(size),
        None => Answer::Fault(FtpError::BadResponse),
    }
}

/// The features that a reply lists; `BadResponse` where its lines break the form.
pub fn features_answer(alloc: Global, reply: &Response) -> Result<Answer, AllocError>
    ensures answer { IfOk result (λ answer. answer ≡
        features_answer (features_in reply.now.body)) }
    ensures kind { IfOk result (AnswersKind Lists) }
{
    match read_features(alloc, reply.body.as_slice())? {
        Some(features) => Ok(Answer::Features(features)),
        None => Ok(Answer::Fault(FtpError::BadResponse)),
    }
}
