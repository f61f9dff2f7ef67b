// Document 01's order of a plane's edges: for each superblock column its vertical edges, then the previous column's horizontal edges; at
// the end the last column's. Each walk is a sweep over a part of the plane's cells; it notes each edge in the record where that has room, and
// hands on what it has done. An empty list of keep marks keeps nothing.
ghost use Rattle.std.specs.Prelude.{◌≡◌, ◌+◌, ◌*◌, ◌≤◌, ◌<◌, eqb, length};
ghost use Rattle.laws.specs.Choose.{pick};
ghost use Rattle.rules.specs.Plane.{tiled, visit_of, sb_cols, turn_of, edges_of};
ghost use Rattle.cell_edges.specs.Cells.{Sizes, Cell, one_way, short_by};
ghost use Rattle.plane.specs.Run.{start_by, Field, PartOf, InPart, in_line, line_of, in_sweep, none, Most, state, Ran, RanFew};

use crate::edge::edge_at;
use crate::part::{Part, superblock};
use cell_edges::pair::{by_dir, is_edge, shortened_by};
use kept::filter_marked;
use records::note;
use rules::counts::Visited;
use rules::depth::Depth;
use rules::settings::Plane;

// Whether a cell's edge is shortened. Tile starts are looked up for a vertical edge alone: with less to do for a horizontal one the compiler
// makes a visit for each direction.
fn is_short(table: &[u32; 2440], s: Plane, dir: usize, r: usize, c: usize) -> bool
    requires { Sizes s × (c < s.cols) }
    ensures { result ≡ short_by s (start_by table.now c) dir r }
{
    if dir == 0 {
        return table[1416 + c] == 1;
    }
    shortened_by(s, false, dir, r)
}

// The edge of one cell, where it has one.
fn visit(
    plane: &mut [u16],
    buffer: &mut [u8],
    marks: &[u8],
    sizes: &[u8],
    qindex: &[u16],
    keep: &[u8],
    table: &[u32; 2440],
    s: Plane,
    done: Visited,
    dir: usize,
    r: usize,
    c: usize,
) -> Visited
    requires { Field s marks.now sizes.now qindex.now table.now (length plane.old) dir × Cell s r c × (dir ≤ 1) × Most 70368744177664 done }
    ensures { RanFew s table.now keep.now 1
        (λ steps ts. visit_of s steps (one_way marks.now sizes.now qindex.now ts) dir r c)
        (state plane.old buffer.old done) (state plane.new buffer.new result) }
{
    if !is_edge(marks, s, dir, r, c) {
        return done;
    }
    let shortened = is_short(table, s, dir, r, c);
    let e = edge_at(sizes, qindex, table, s, shortened, dir, r, c);
    note(buffer, done.bytes, e);
    let depth = Depth { bits: s.depth };
    let o = filter_marked(
        plane,
        keep,
        s.cols,
        s.stride,
        4 * s.cols,
        4 * s.rows,
        e,
        depth.top(),
    );
    Visited {
        bytes: done.bytes + 10,
        stored: done.stored + o.stored,
        changed: done.changed + o.changed,
    }
}

// The vertical edge of the j-th cell of a part's k-th row. Each direction has a visit of its own, which the compiler makes for it.
fn in_row(
    plane: &mut [u16],
    buffer: &mut [u8],
    marks: &[u8],
    sizes: &[u8],
    qindex: &[u16],
    keep: &[u8],
    table: &[u32; 2440],
    s: Plane,
    done: Visited,
    p: Part,
    k: usize,
    j: usize,
) -> Visited
    requires { Field s marks.now sizes.now qindex.now table.now (length plane.old) 0 × PartOf s p × (k < p.rows) × (j < p.cols) × Most 70368744177664 done }
    ensures { RanFew s table.now keep.now 1
        (λ steps ts. visit_of s steps (one_way marks.now sizes.now qindex.now ts) 0 (p.row + k) (p.col + j))
        (state plane.old buffer.old done) (state plane.new buffer.new result) }
{
    visit(
        plane,
        buffer,
        marks,
        sizes,
        qindex,
        keep,
        table,
        s,
        done,
        0,
        p.row + k,
        p.col + j,
    )
}

// The horizontal edge of the j-th cell of a part's k-th column.
fn in_column(
    plane: &mut [u16],
    buffer: &mut [u8],
    marks: &[u8],
    sizes: &[u8],
    qindex: &[u16],
    keep: &[u8],
    table: &[u32; 2440],
    s: Plane,
    done: Visited,
    p: Part,
    k: usize,
    j: usize,
) -> Visited
    requires { Field s marks.now sizes.now qindex.now table.now (length plane.old) 1 × PartOf s p × (k < p.cols) × (j < p.rows) × Most 70368744177664 done }
    ensures { RanFew s table.now keep.now 1
        (λ steps ts. visit_of s steps (one_way marks.now sizes.now qindex.now ts) 1 (p.row + j) (p.col + k))
        (state plane.old buffer.old done) (state plane.new buffer.new result) }
{
    visit(
        plane,
        buffer,
        marks,
        sizes,
        qindex,
        keep,
        table,
        s,
        done,
        1,
        p.row + j,
        p.col + k,
    )
}

// The edge of the j-th cell of a part's k-th line.
fn cell(
    plane: &mut [u16],
    buffer: &mut [u8],
    marks: &[u8],
    sizes: &[u8],
    qindex: &[u16],
    keep: &[u8],
    table: &[u32; 2440],
    s: Plane,
    done: Visited,
    dir: usize,
    p: Part,
    k: usize,
    j: usize,
) -> Visited
    requires { Field s marks.now sizes.now qindex.now table.now (length plane.old) dir × PartOf s p × InPart dir p k j × Most 70368744177664 done }
    ensures { RanFew s table.now keep.now 1
        (λ steps ts. in_line s steps (one_way marks.now sizes.now qindex.now ts) dir p k j)
        (state plane.old buffer.old done) (state plane.new buffer.new result) }
{
    if dir == 0 {
        return in_row(
            plane, buffer, marks, sizes, qindex, keep, table, s, done, p, k, j,
        );
    }
    in_column(
        plane, buffer, marks, sizes, qindex, keep, table, s, done, p, k, j,
    )
}

// One line of a part: its k-th row in direction 0, its k-th column in direction 1.
fn line(
    plane: &mut [u16],
    buffer: &mut [u8],
    marks: &[u8],
    sizes: &[u8],
    qindex: &[u16],
    keep: &[u8],
    table: &[u32; 2440],
    s: Plane,
    sofar: Visited,
    dir: usize,
    p: Part,
    k: usize,
) -> Visited
    requires { Field s marks.now sizes.now qindex.now table.now (length plane.old) dir × PartOf s p × (dir ≤ 1) × (k < pick (eqb dir 0) p.rows p.cols) × Most 35184372088832 sofar }
    ensures { RanFew s table.now keep.now 1024
        (λ steps ts. line_of s steps (one_way marks.now sizes.now qindex.now ts) dir p k)
        (state plane.old buffer.old sofar) (state plane.new buffer.new result) }
{
    let n = by_dir(dir, p.cols, p.rows);
    let mut done = sofar;
    for j in 0..n {
        done = cell(
            plane, buffer, marks, sizes, qindex, keep, table, s, done, dir, p, k, j,
        );
    }
    done
}

// One direction's edges of a part of the cells: vertical ones row by row, horizontal ones column by column.
pub fn sweep(
    plane: &mut [u16],
    buffer: &mut [u8],
    marks: &[u8],
    sizes: &[u8],
    qindex: &[u16],
    keep: &[u8],
    table: &[u32; 2440],
    s: Plane,
    sofar: Visited,
    dir: usize,
    p: Part,
) -> Visited
    requires { Field s marks.now sizes.now qindex.now table.now (length plane.old) dir × PartOf s p × (dir ≤ 1) × Most 17592186044416 sofar }
    ensures { RanFew s table.now keep.now 1048576
        (λ steps ts. in_sweep s steps (one_way marks.now sizes.now qindex.now ts) dir p)
        (state plane.old buffer.old sofar) (state plane.new buffer.new result) }
{
    let n = by_dir(dir, p.rows, p.cols);
    let mut done = sofar;
    for k in 0..n {
        done = line(
            plane, buffer, marks, sizes, qindex, keep, table, s, done, dir, p, k,
        );
    }
    done
}

// A superblock column's vertical edges, then the previous one's horizontal edges.
fn turn(
    plane: &mut [u16],
    buffer: &mut [u8],
    vedge: &[u8],
    hedge: &[u8],
    sqw: &[u8],
    sqh: &[u8],
    qindex: &[u16],
    keep: &[u8],
    table: &[u32; 2440],
    s: Plane,
    done: Visited,
    sb: usize,
) -> Visited
    requires { Field s vedge.now sqw.now qindex.now table.now (length plane.old) 0 × Field s hedge.now sqh.now qindex.now table.now (length plane.old) 1 × (sb < sb_cols s) × Most 8796093022208 done }
    ensures { RanFew s table.now keep.now 2097152
        (λ steps ts. turn_of s steps (tiled vedge.now hedge.now sqw.now sqh.now qindex.now ts) sb)
        (state plane.old buffer.old done) (state plane.new buffer.new result) }
{
    let vertical = sweep(
        plane,
        buffer,
        vedge,
        sqw,
        qindex,
        keep,
        table,
        s,
        done,
        0,
        superblock(s, sb),
    );
    if sb == 0 {
        return vertical;
    }
    sweep(
        plane,
        buffer,
        hedge,
        sqh,
        qindex,
        keep,
        table,
        s,
        vertical,
        1,
        superblock(s, sb - 1),
    )
}

// Every superblock column's turn, and at the end the last one's horizontal edges.
pub fn run(
    plane: &mut [u16],
    buffer: &mut [u8],
    vedge: &[u8],
    hedge: &[u8],
    sqw: &[u8],
    sqh: &[u8],
    qindex: &[u16],
    keep: &[u8],
    table: &[u32; 2440],
    s: Plane,
) -> Visited
    requires { Field s vedge.now sqw.now qindex.now table.now (length plane.old) 0 × Field s hedge.now sqh.now qindex.now table.now (length plane.old) 1 }
    ensures { Ran s table.now keep.now
        (λ steps ts. edges_of s steps (tiled vedge.now hedge.now sqw.now sqh.now qindex.now ts))
        (state plane.old buffer.old none) (state plane.new buffer.new result) }
{
    let n = (s.cols + s.sbw - 1) / s.sbw;
    let mut done = Visited {
        bytes: 5,
        stored: 0,
        changed: 0,
    };
    for sb in 0..n {
        done = turn(
            plane, buffer, vedge, hedge, sqw, sqh, qindex, keep, table, s, done, sb,
        );
    }
    sweep(
        plane,
        buffer,
        hedge,
        sqh,
        qindex,
        keep,
        table,
        s,
        done,
        1,
        superblock(s, n - 1),
    )
}
