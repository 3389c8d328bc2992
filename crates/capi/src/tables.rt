// The calls on tables of words, whatever their values.
ghost use Rattle.std.specs.Prelude.{◌≡◌};
ghost use Rattle.differences.specs.Differences.{differences_number, differences_output, restore_output};

use array::Word;
use refusal::number_of;

// out := the first n words of the table, and each later word minus the word n places before, wrapped at 32 bits: 0, or 2, 9, 10.
#[unsafe(no_mangle)]
pub extern "C" fn yokebean_differences(n: u32, table: &[Word], out: &mut [Word]) -> u32
    ensures value { result ≡ differences_number n table.now out.old }
    ensures out_after { out.new ≡ differences_output n table.now out.old }
{
    number_of(differences::store::differences(n, table, out))
}

// out := the table that has the words of `table` as its differences: 0, or 2, 9, 10.
#[unsafe(no_mangle)]
pub extern "C" fn yokebean_restore(n: u32, table: &[Word], out: &mut [Word]) -> u32
    ensures value { result ≡ differences_number n table.now out.old }
    ensures out_after { out.new ≡ restore_output n table.now out.old }
{
    number_of(restoring::restore::restore(n, table, out))
}
