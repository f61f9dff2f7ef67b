// Document 01, "Segment alone": an edge's numbers within their ranges; its place may be any.
ghost use Rattle.std.specs.Prelude.{◌≡◌};
ghost use Rattle.rules.specs.Segment.{ranges_ok};

use rules::edge::Edge;

pub fn ranges_ok(e: Edge) -> bool
    ensures { result ≡ ranges_ok e }
{
    e.q <= 2048 && e.side <= 839 && e.pair <= 7 && e.dir <= 1
}
