// The method of a node: a span that moves on over rising nodes, so that a scan goes through the methods once.
ghost use Rattle.std.specs.Prelude.{◌≡◌, ℕ, ◌+◌, ◌<◌, ◌≤◌};
ghost use Rattle.model.specs.Program.{is_edge};
ghost use Rattle.recipe.specs.Bytes.{method_in, program_of};
ghost use Rattle.recipe.specs.Spans.{Summed, SpanOf};

use crate::Layout;
use model::Edge;

// A layout whose methods' node counts sum up to its node count, so that each node is in a method.
#[derive(Clone, Copy)]
pub(crate) struct Divided<'l, 'a> {
    pub layout: &'l Layout<'a>,
    ghost sums: { Summed layout.now.file.now },
}

// A method of such a layout with its first node and the node past its last one.
#[derive(Clone, Copy)]
pub(crate) struct Span<'l, 'a> {
    of: Divided<'l, 'a>,
    pub method: usize,
    pub start: usize,
    pub end: usize,
    ghost spans: { SpanOf of.layout.now.file.now method start end },
}

impl<'l, 'a> Divided<'l, 'a> {
    // The span of the first method.
    pub(crate) fn first_span(self) -> Span<'l, 'a>
        ensures of { result.of ≡ self.entry }
        ensures first { result.start ≡ 0 }
    {
        Span {
            of: self,
            method: 0,
            start: 0,
            end: self.layout.method(0).nodes as usize,
        }
    }
}

impl<'l, 'a> Span<'l, 'a> {
    // The span of the next method.
    fn next(self) -> Span<'l, 'a>
        requires { self.end < self.of.layout.now.contents.nodes.count }
        ensures of { result.of ≡ self.entry.of }
        ensures method { result.method ≡ self.entry.method + 1 }
        ensures start { result.start ≡ self.entry.end }
    {
        let method = self.method + 1;
        let own = self.of.layout.method(method).nodes as usize;
        Span {
            of: self.of,
            method,
            start: self.end,
            end: self.end + own,
        }
    }

    // The span that has node n: this one, or one after it.
    pub(crate) fn seek(self, n: usize) -> Span<'l, 'a>
        requires low { self.start ≤ n }
        requires within { n < self.of.layout.now.contents.nodes.count }
        ensures of { result.of ≡ self.entry.of }
        ensures low { result.start ≤ n }
        ensures high { n < result.end }
    {
        let mut span = self;
        // How many methods are passed is only known where it stops.
        while n >= span.end {
            span = span.next();
        }
        span
    }

    // The rights of the method.
    pub(crate) fn rights(self) -> u32
        ensures { result ≡ (method_in self.entry.of.layout.now.file.now self.entry.method).rights }
    {
        self.of.layout.method(self.method).rights
    }

    // Whether e is an edge by the rules, where this is the span of the node it leaves.
    pub(crate) fn edge_fits(self, e: Edge) -> bool
        requires low { self.start ≤ e.from }
        requires high { e.from < self.end }
        ensures { result ≡ is_edge (program_of self.entry.of.layout.now.file.now) e }
    {
        let from = self.of.layout.node_at(e.from as usize);
        !from.kind.is_return() && (self.start..self.end).contains(&(e.to as usize))
    }
}
