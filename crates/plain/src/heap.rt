// The heap's cells: total reads and stores, and room for what is made. What stands at a is a header of four cells, base, depth, size and
// ready, and the fields or elements after it.
ghost use Rattle.std.specs.Prelude.{◌≡◌, ◌+◌, ◌≤◌, true, [], ◌∷◌, ◌++◌, length, take, drop, ◌==◌, slice_index, slice_set};
ghost use Rattle.classfiles.specs.Limits.{max_heap};
ghost use Rattle.plain.specs.Heap.{heap, ref_of, element_at, has_room, allocate};
ghost use Rattle.plain.specs.HeapLaws.{cleared};

// Past the end 0.
fn cell(cells: &[u32], i: usize) -> u32
    ensures { result ≡ slice_index cells.now i }
{
    if i < cells.len() {
        return cells[i];
    }
    0
}

// Past the end nothing.
fn store(cells: &mut [u32], i: usize, v: u32)
    ensures { cells.new ≡ slice_set cells.old i v }
{
    if i < cells.len() {
        cells[i] = v;
    }
}

// An object's class, or an array's base.
pub fn base_at(cells: &[u32], a: u32) -> u32
    ensures { result ≡ slice_index cells.now a }
{
    cell(cells, a as usize)
}

// How many brackets: 0 for an object.
pub fn depth_at(cells: &[u32], a: u32) -> u32
    ensures { result ≡ slice_index cells.now (a + 1) }
{
    cell(cells, a as usize + 1)
}

// How many fields or elements.
pub fn size_at(cells: &[u32], a: u32) -> u32
    ensures { result ≡ slice_index cells.now (a + 2) }
{
    cell(cells, a as usize + 2)
}

pub fn ready_at(cells: &[u32], a: u32) -> bool
    ensures { result ≡ (slice_index cells.now (a + 3) == 1) }
{
    cell(cells, a as usize + 3) == 1
}

pub fn mark_ready(cells: &mut [u32], a: u32)
    ensures { cells.new ≡ slice_set cells.old (a + 3) 1 }
{
    store(cells, a as usize + 3, 1);
}

pub fn element(cells: &[u32], a: u32, i: u32) -> u32
    ensures { result ≡ slice_index cells.now (element_at a i) }
{
    cell(cells, a as usize + 4 + i as usize)
}

pub fn set_element(cells: &mut [u32], a: u32, i: u32, v: u32)
    ensures { cells.new ≡ slice_set cells.old (element_at a i) v }
{
    store(cells, a as usize + 4 + i as usize, v);
}

// Summed at twice the width, where no length makes it wrap.
pub fn has_room(cells: &[u32], used: u32, n: u32) -> bool
    ensures { result ≡ has_room (heap cells.now used) n }
{
    used as usize + (4 + n as usize) <= cells.len()
}

fn clear(cells: &mut [u32], a: usize, n: usize)
    requires { a + n ≤ length cells.old }
    ensures { cells.new ≡ cleared cells.old a n }
{
    cells[a..a + n].fill(0);
}

fn put_header(cells: &mut [u32], a: usize, base: u32, depth: u32, n: u32, ready: u32)
    requires { a + 4 ≤ length cells.old }
    ensures { cells.new ≡ take a cells.old ++ ((base ∷ depth ∷ n ∷ ready ∷ []) ++ drop (a + 4) cells.old) }
{
    cells[a] = base;
    cells[a + 1] = depth;
    cells[a + 2] = n;
    cells[a + 3] = ready;
}

// Answers how much is used then.
pub fn allocate(cells: &mut [u32], used: u32, base: u32, depth: u32, n: u32, ready: u32) -> u32
    requires { (has_room (heap cells.old used) n ≡ true) × (length cells.old ≤ max_heap) }
    ensures { heap cells.new result ≡ allocate (heap cells.old used) (ref_of base depth) n ready }
{
    let a = used as usize;
    clear(cells, a + 4, n as usize);
    put_header(cells, a, base, depth, n, ready);
    used + (4 + n)
}
