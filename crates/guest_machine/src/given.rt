// Values that are given on, whatever they are.
ghost use Rattle.std.specs.Prelude.{◌≡◌, ◌<◌, ◌++◌, ◌∷◌, [], Err, IfErr, IfOk, IsOk, OnErr, OnOk, vec_len, vec_capacity};

/// The value, where what it was lent for was done.
pub(crate) fn after<T: Drop, E>(value: T, done: Result<(), E>) -> Result<T, E>
    ensures ok { IfOk result (λ given. (given ≡ value) × IsOk done) }
    ensures err { IfErr result (λ why. done ≡ Err why) }
{
    match done {
        Ok(()) => Ok(value),
        Err(why) => Err(why),
    }
}

/// Puts a value behind others, where what it tells was done. There is room for it.
pub(crate) fn push_after<T: Drop, E>(
    out: &mut Vec<T>,
    value: T,
    done: Result<(), E>,
) -> Result<(), E>
    requires room { vec_len out.old < vec_capacity out.old }
    ensures same { result ≡ done }
    ensures ok { OnOk result (out.new.items ≡ out.old.items ++ value ∷ []) }
    ensures err { OnErr result (out.new.items ≡ out.old.items) }
{
    match done {
        Ok(()) => {
            out.push_reserved(value);
            Ok(())
        }
        Err(why) => Err(why),
    }
}
