// Functions below the calls, exported for oracle/ to time and compare.
#![tactic(auto)]

ghost use Rattle.std.specs.Prelude.{◌≡◌};
ghost use Rattle.float.specs.Ops.{rem};
ghost use Rattle.float.specs.Constants.{τ};
ghost use Rattle.float.specs.Standins as F;

#[unsafe(no_mangle)]
pub extern "C" fn murshogi_root(v: f64) -> f64
    ensures { result ≡ F.root v }
{
    float::root(v)
}

#[unsafe(no_mangle)]
pub extern "C" fn murshogi_rem_tau(a: f64) -> f64
    ensures { result ≡ rem a τ }
{
    remainder::rem_tau(a)
}

#[unsafe(no_mangle)]
pub extern "C" fn murshogi_sin(a: f64) -> f64
    ensures { result ≡ F.sin a }
{
    float::sin(a)
}

#[unsafe(no_mangle)]
pub extern "C" fn murshogi_cos(a: f64) -> f64
    ensures { result ≡ F.cos a }
{
    float::cos(a)
}
