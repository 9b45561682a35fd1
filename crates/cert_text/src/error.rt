//! Why a certificate could not be read.

ghost use Rattle.std.specs.Prelude.{◌≡◌};
ghost use Rattle.cert_text.specs.Answers.{cert_error};

use line_text::LineError;

/// Why a certificate could not be read.
#[derive(Debug, Drop)]
pub enum CertError {
    /// The number, from 1, of the first line with which no certificate begins.
    /// Where the text ends too early it is the line after the last line feed.
    BadCert { line: u64 },
    /// Memory ran out.
    Memory,
}

impl From<LineError> for CertError {
    ghost from_gives = { λ e c. c ≡ cert_error e };

    fn from(e: LineError) -> CertError {
        match e {
            LineError::Memory => CertError::Memory,
            LineError::BadLine { line } => CertError::BadCert { line },
        }
    }
}
