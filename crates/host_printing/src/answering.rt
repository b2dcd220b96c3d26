// What the programs write for a script: a refusal's row, or the rows of its run.
ghost use Rattle.std.specs.Prelude.{◌≡◌, ℕ, [], ◌∷◌, length};
ghost use Rattle.leaf_bytes.specs.Bytes.{bytes};
ghost use Rattle.law.specs.Print.{decimal_of, row};
ghost use Rattle.law.specs.Verdict.{refused as turned_down};
ghost use Rattle.law_answers.specs.Written.{Puts};

use crate::machines::Machine;
use host_writing::rows::refused;

// Writes a machine's answer for a script; how many bytes that is. Of the store's lists so many numbers are lent, or else one for each cell,
// as far as there is room.
pub fn answer<M: Machine>(
    text: &[u8],
    work: &mut [u32],
    names: &mut [usize],
    values: &mut [i64],
    marks: &mut [u8],
    out: &mut [u8],
    lent: Option<(usize, usize)>,
    budget: u32,
) -> usize
    ensures { (m n : ℕ) → M.verdict text.now (length work.old) ≡ turned_down m n → Puts (row (bytes "refused" ∷ decimal_of m ∷ decimal_of n ∷ [])) out.old 0 result out.new }
{
    match M::owners(text, work, names) {
        Ok(cells) => {
            let (v, m) = lent.unwrap_or((cells, cells));
            let v = v.min(values.len());
            let m = m.min(marks.len());
            M::scripted(
                out,
                text,
                work,
                names,
                &mut values[..v],
                &mut marks[..m],
                budget,
            )
        }
        Err(e) => refused(out, 0, e.number, e.line),
    }
}
