//! What other errors become as one of the client's, by `?`.

use crate::seen::assert_same;
use ftp_base::types::FtpError;
use ftp_list::ParseError;
use std::io::ErrorKind;
use std::test::Fail;

/// The number of the client's error.
fn number(error: FtpError) -> u8 {
    let number = error.number();
    drop(error);
    number
}

#[test]
fn kinds_dates_and_lines_have_an_error_of_the_client(rt: HostRuntime) -> Result<(), Fail> {
    let kind = number(FtpError::from(ErrorKind::NotFound));
    let dates = [
        number(FtpError::from(jiff::Error::InvalidDay)),
        number(FtpError::from(jiff::Error::OutOfMemory)),
    ];
    let lines = [
        number(FtpError::from(ParseError::SyntaxError)),
        number(FtpError::from(ParseError::InvalidDate)),
        number(FtpError::from(ParseError::BadSize)),
        number(FtpError::from(ParseError::OutOfMemory)),
    ];
    // `Io` is 1, `BadResponse` 11, `OutOfMemory` 13
    assert_same(&rt, (kind, dates, lines), (1, [11, 13], [11, 11, 11, 13]));
    Ok(())
}
