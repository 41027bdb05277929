//! Programs with the stencils of their last comprehension.

/// A row is a name, the points and cells of a mesh, a program, and the visits with the stencils of the iterations between strokes: the
/// field, the element and the mode of each access.
pub const ROWS: &str =
    "degrees~4~0 1 2 3~field Deg : Vertex = 0; for (e <- edges(mesh)) { Deg(head(e)) += 1; Deg(tail(e)) += 1; }~48:6.0+ 6.1+/6.0+ 6.2+/6.0+ 6.3+/6.1+ 6.2+/6.1+ 6.3+/6.2+ 6.3+
both blocks of an if~4~0 1 2 3~field A : Vertex = 0; field B : Vertex = 0; for (x <- vertices(mesh)) { if (1 == 0) { A(x) += 1; } else { B(x) = 2; } }~40:6.0+ 7.0w/6.1+ 7.1w/6.2+ 7.2w/6.3+ 7.3w
a while body once~4~0 1 2 3~field A : Vertex = 0; field B : Vertex = 0; for (x <- vertices(mesh)) { while (A(x) == 0) { B(x) += 1; } }~32:6.0r 7.0+/6.1r 7.1+/6.2r 7.2+/6.3r 7.3+
both operands of an and~4~0 1 2 3~field A : Vertex = 0; for (x <- vertices(mesh)) { if (1 == 0 && A(x) == 0) { } }~36:6.0r/6.1r/6.2r/6.3r
nil~5~0 1 2 3/1 2 3 4~field A : Vertex = 0; field C : Cell = 0; field D : Cell = 0; for (x <- faces(mesh)) { D(outside(x)) = C(inside(x)); for (v <- vertices(outside(x))) { A(v) += 1; } }~79:7.0r/7.0r/7.0r/6.1+ 6.2+ 6.3+ 6.4+ 7.0r 8.1w/7.1r/7.1r/7.1r
built-in fields~4~0 1 2 3~field A : Vertex = 0; for (x <- vertices(mesh)) { A(x) = PosX(x) + Mark(x); }~28:0.0r 3.0r 6.0w/0.1r 3.1r 6.1w/0.2r 3.2r 6.2w/0.3r 3.3r 6.3w
the edges of a cycle~4~0 1 2 3~field E : Edge = 0; for (x <- faces(mesh)) { for (v <- edges_ccw(x)) { E(v) += 1; } }~56:6.0+ 6.1+ 6.3+/6.0+ 6.2+ 6.4+/6.1+ 6.2+ 6.5+/6.3+ 6.4+ 6.5+
a name used after an inner loop and bound again~4~0 1 2 3~field A : Vertex = 0; field B : Vertex = 0; for (x <- edges(mesh)) { for (v <- vertices(x)) { for (w <- edges(v)) { } A(v) += 1; } val v = head(x); B(v) = 1; }~156:6.0+ 6.1+ 7.1w/6.0+ 6.2+ 7.2w/6.0+ 6.3+ 7.3w/6.1+ 6.2+ 7.2w/6.1+ 6.3+ 7.3w/6.2+ 6.3+ 7.3w
a hundred accesses of four spots~4~0 1 2 3~field A : Vertex = 0; for (c <- cells(mesh)) { for (s <- vertices(c)) { for (t <- vertices(s)) { for (u <- vertices(t)) { for (v <- vertices(u)) { A(v) min= 1; } } } } }~590:6.0< 6.1< 6.2< 6.3<
scalars and local numbers~4~0 1 2 3~var sum = 0; field A : Cell = 0; for (c <- cells(mesh)) { var n = A(c); n += 1; sum += n; }~7:6.0r
no iterations~3~~field A : Cell = 0; for (c <- cells(mesh)) { A(c) = 1; }~0:
the second comprehension~4~0 1 2 3~field A : Cell = 0; for (c <- cells(mesh)) { A(c) = 1; } field B : Face = 0; for (f <- faces(mesh)) { B(f) = A(inside(f)); }~20:6.0r 7.0w/6.0r 7.1w/6.0r 7.2w/6.0r 7.3w";

/// A program of two comprehensions.
pub const TWO_COMPREHENSIONS: &str =
    "field A : Cell = 0; for (c <- cells(mesh)) { A(c) = 1; } field B : Face = 0; for (f <- faces(mesh)) { B(f) = A(inside(f)); }";
