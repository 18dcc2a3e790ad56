// The answers that an analysed table holds, each copied into an array of its own.
ghost use Rattle.std.specs.Prelude.{◌≡◌, ◌≤◌, length, map, drop, MatchBool, nat_lt};
ghost use Rattle.std.specs.Fn.{FnReturnsAt};
ghost use Rattle.pattern.specs.Patterns.{Pattern};
ghost use Rattle.pattern.specs.Lists.{upto};
ghost use Rattle.pattern.specs.Analysis.{first_place_of, height_of, place_of};
ghost use Rattle.pattern.specs.Elimination.{col_count, parent, row_count};
ghost use Rattle.downskillet_c.specs.Analysing.{TableOf};
ghost use Rattle.downskillet_c.specs.Answers.{ReadOff, number_for, written, height_told, column_told};

use analysis::records::Vertex;
use model::Refusal;

// Copies what `answer` reads of each vertex into the first places of the array.
fn read_off<F: Fn(&Vertex) -> u32>(vertices: &[Vertex], answers: &mut [u32], answer: F)
    requires reads { F.IsAlwaysCallable answer }
    requires room { length vertices.now ≤ length answers.old }
    ensures { ReadOff (FnReturnsAt F.Fn answer) vertices.now answers.old answers.new }
{
    for (k, vertex) in vertices.iter().enumerate() {
        answers[k] = answer(vertex);
    }
}

// The same, refused with nothing written if the array has too few places.
fn write<F: Fn(&Vertex) -> u32>(vertices: &[Vertex], answers: &mut [u32], answer: F) -> u32
    requires { F.IsAlwaysCallable answer }
    ensures number { result ≡ number_for (length vertices.now) (length answers.old) }
    ensures left { MatchBool (nat_lt (length answers.old) (length vertices.now))
        (answers.new ≡ answers.old)
        (ReadOff (FnReturnsAt F.Fn answer) vertices.now answers.old answers.new) }
{
    if answers.len() < vertices.len() {
        return Refusal::ArraysTooShort.number().into();
    }
    read_off(vertices, answers, answer);
    0
}

#[unsafe(no_mangle)]
pub extern "C" fn downskillet_parents(vertices: &[Vertex], parents: &mut [u32]) -> u32
    ensures number { result ≡ number_for (length vertices.now) (length parents.old) }
    ensures copied { parents.new ≡ written (map (λ x. x.parent) vertices.now) parents.old }
    ensures answers { (p : Pattern) → TableOf p vertices.now →
        parents.new ≡ written (map (parent p) (upto p.order)) parents.old }
{
    write(vertices, parents, |vertex| vertex.parent as u32)
}

#[unsafe(no_mangle)]
pub extern "C" fn downskillet_places(vertices: &[Vertex], places: &mut [u32]) -> u32
    ensures number { result ≡ number_for (length vertices.now) (length places.old) }
    ensures copied { places.new ≡ written (map (λ x. x.place) vertices.now) places.old }
    ensures answers { (p : Pattern) → TableOf p vertices.now →
        places.new ≡ written (map (place_of p) (upto p.order)) places.old }
{
    write(vertices, places, |vertex| vertex.place as u32)
}

#[unsafe(no_mangle)]
pub extern "C" fn downskillet_first_places(vertices: &[Vertex], places: &mut [u32]) -> u32
    ensures number { result ≡ number_for (length vertices.now) (length places.old) }
    ensures copied { places.new ≡ written (map (λ x. x.first.0) vertices.now) places.old }
    ensures answers { (p : Pattern) → TableOf p vertices.now →
        places.new ≡ written (map (first_place_of p) (upto p.order)) places.old }
{
    write(vertices, places, |vertex| vertex.first.0 as u32)
}

#[unsafe(no_mangle)]
pub extern "C" fn downskillet_heights(vertices: &[Vertex], heights: &mut [u32]) -> u32
    ensures number { result ≡ number_for (length vertices.now) (length heights.old) }
    ensures copied { heights.new ≡ written (map height_told vertices.now) heights.old }
    ensures answers { (p : Pattern) → TableOf p vertices.now →
        heights.new ≡ written (map (height_of p) (upto p.order)) heights.old }
{
    write(
        vertices,
        heights,
        |vertex| vertex.deepest.0.saturating_sub(vertex.level) as u32,
    )
}

#[unsafe(no_mangle)]
pub extern "C" fn downskillet_row_counts(vertices: &[Vertex], counts: &mut [u32]) -> u32
    ensures number { result ≡ number_for (length vertices.now) (length counts.old) }
    ensures copied { counts.new ≡ written (map (λ x. x.rows) vertices.now) counts.old }
    ensures answers { (p : Pattern) → TableOf p vertices.now →
        counts.new ≡ written (map (row_count p) (upto p.order)) counts.old }
{
    write(vertices, counts, |vertex| vertex.rows as u32)
}

// The column count that a record tells.
fn column_told(vertex: &Vertex) -> u32
    ensures { result ≡ column_told vertex.now }
{
    u32::try_from(vertex.weight.0.max(0)).unwrap_or(u32::MAX)
}

#[unsafe(no_mangle)]
pub extern "C" fn downskillet_column_counts(vertices: &[Vertex], counts: &mut [u32]) -> u32
    ensures number { result ≡ number_for (length vertices.now) (length counts.old) }
    ensures copied { counts.new ≡ written (map column_told vertices.now) counts.old }
    ensures answers { (p : Pattern) → TableOf p vertices.now →
        counts.new ≡ written (map (col_count p) (upto p.order)) counts.old }
{
    write(vertices, counts, |vertex| column_told(vertex))
}
