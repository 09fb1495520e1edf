// What is replied.
ghost use Rattle.std.specs.Prelude.{◌≡◌};
ghost use Rattle.desk.specs.Replies.{reply_of};

use ask::{Answer, Asked};
use console::Reply;
use questions::Question;

/// The reply to a command that was obeyed or refused, with the fit that an ask may have written.
pub fn reply_to<'a>(res: Result<Option<Asked>, Question>, values: &'a [u8]) -> Reply<'a>
    ensures { result ≡ reply_of res values.entry }
{
    match res {
        Err(question) => Reply::No(question),
        Ok(None) => Reply::Ok,
        Ok(Some(Asked { answer, count })) => match answer {
            Answer::Fit => Reply::Fit { values, count },
            Answer::None => Reply::None { count },
            Answer::Stopped => Reply::Stop { count },
        },
    }
}
