// A failed read or write told on standard error, in the words of the system.
ghost use Rattle.std.specs.Prelude.{◌≡◌};
ghost use Rattle.told.specs.Reason.{IsReason};

use std::io;

// What failed and why, without the system's number for it; with the number where no memory is left to cut it off.
// No contract can say what standard error takes. So what the programs use is a macro: code of who tells.
#[macro_export]
macro_rules! fail {
    ($rt:expr, $what:expr, $error:expr) => {{
        let rt = $rt;
        let what = $what;
        let error = $error;
        match format!(in rt.alloc(); "{error}") {
            Ok(whole) => {
                let reason = $crate::without_number(whole.as_str());
                let _ = eprintln!(rt; "{what}: {reason}");
            }
            Err(_) => {
                let _ = eprintln!(rt; "{what}: {error}");
            }
        }
    }};
}

// The same by a call. That it asks nothing and returns, whatever failed, is all that a contract can say of it.
pub fn fail(rt: HostRuntime, what: &str, error: io::Error)
    ensures { result ≡ tt }
{
    fail!(rt, what, error);
}

// The words before " (os error ", or all of them where none is.
pub fn without_number(error: &str) -> &str
    ensures { IsReason error.now result.now }
{
    match error.split_once(" (os error ") {
        Some((reason, _)) => reason,
        None => error,
    }
}

#[cfg(test)]
mod tests {
    use super::*;
    use std::test::Fail;

    #[test]
    fn failure_in_the_words_of_the_system(rt: HostRuntime) -> Result<(), Fail> {
        let error = io::Error::from_raw_os_error(9);
        let whole = format!(in rt.alloc(); "{error}")?;
        assert_eq!(rt; without_number(whole.as_str()), "Bad file descriptor");
        fail!(rt, "told: tried by its test", error);
        Ok(())
    }

    #[test]
    fn failure_told_by_a_call(rt: HostRuntime) -> Result<(), Fail> {
        let error = io::Error::from_raw_os_error(28);
        let whole = format!(in rt.alloc(); "{error}")?;
        assert_eq!(rt; without_number(whole.as_str()), "No space left on device");
        fail(rt, "told: called by its test", error);
        Ok(())
    }

    #[test]
    fn number_is_cut_off(rt: HostRuntime) {
        assert_eq!(rt;
            without_number("Bad file descriptor (os error 9)"),
            "Bad file descriptor"
        );
        assert_eq!(rt; without_number("write zero"), "write zero");
        assert_eq!(rt; without_number("a (os error 1) (os error 2)"), "a");
        assert_eq!(rt; without_number(" (os error 9)"), "");
    }
}
