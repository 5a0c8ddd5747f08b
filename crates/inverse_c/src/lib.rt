// The inverse block, which this library offers to the test that holds it to libmcrypt: the call of the same name in `inverse`, under the same contract.
#![tactic(auto)]

ghost use Rattle.std.specs.Prelude.{◌≡◌};
ghost use Rattle.inverse.specs.Decipher.{decipher};

#[unsafe(no_mangle)]
pub extern "C" fn inverse_decipher(key: &[u8; 24], block: &mut [u8; 32])
    ensures { block.new ≡ decipher key.now block.old }
{
    inverse::inverse_decipher(key, block);
}
