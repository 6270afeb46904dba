//! Certificates from their text.

ghost use Rattle.std.specs.Prelude.{◌≡◌, ◌<◌, ◌+◌, ◌^◌, length, IfOk, IfErr, option_and_then};
ghost use Rattle.qf_certtext.specs.Drafts.{draft_after};
ghost use Rattle.qf_certtext.specs.Room.{HasRoom};
ghost use Rattle.qf_certtext.specs.Words.{words_of, line_of_words};
ghost use Rattle.qf_certtext.specs.Texts.{IsText, IsFaultOf, ended};

use crate::lines::read_words;
use crate::words::split_at;
use crate::{CertFault, Draft};
use qf_base::NoMemory;
use qf_tree::Cert;
use std::alloc::Global;

// The draft with the line that the bytes spell behind it: `None` where they spell none that may stand there.
fn after_bytes(alloc: Global, draft: Draft, bytes: &[u8]) -> Result<Option<Draft>, NoMemory>
    requires { HasRoom draft }
    ensures { IfOk result (λ next. next ≡ option_and_then (draft_after draft) (line_of_words (words_of bytes.now))) }
{
    match read_words(alloc, bytes) {
        Ok(Some(line)) => draft.after(alloc, line),
        Ok(None) => {
            drop(draft);
            Ok(None)
        }
        Err(refused) => {
            drop(draft);
            Err(refused)
        }
    }
}

// The certificate, where no bytes are behind its text.
fn ended(cert: Cert, rest: &[u8], number: u64) -> Result<Cert, CertFault>
    ensures { result ≡ ended cert rest.now number }
{
    if rest.is_empty() {
        Ok(cert)
    } else {
        Err(CertFault::Trailing(number))
    }
}

/// The certificate whose text the bytes are, or why they are none: `BadLine`, with its number from 1, for the first whole
/// line that may not stand where it stands; `CutShort` where the bytes end before the last line is whole and no line
/// before is bad; `Trailing` where bytes follow the last line, with the number of the next line.
pub fn read(alloc: Global, bytes: &[u8]) -> Result<Cert, CertFault>
    ensures ok { IfOk result (λ cert. IsText cert bytes.now) }
    ensures err { IfErr result (λ fault. IsFaultOf bytes.now fault) }
{
    let mut draft = Draft::Head;
    let mut rest = bytes;
    for lines in 0..bytes.len() {
        let number = lines as u64 + 1;
        let Some((line, behind)) = split_at(b'\n', rest) else {
            drop(draft);
            return Err(CertFault::CutShort);
        };
        let Some(next) = after_bytes(alloc, draft, line)? else {
            return Err(CertFault::BadLine(number));
        };
        match next {
            Draft::Whole(cert) => return ended(cert, behind, number + 1),
            goes_on => draft = goes_on,
        }
        rest = behind;
    }
    drop(draft);
    Err(CertFault::CutShort)
}
