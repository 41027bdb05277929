//! Programs with the end of their run and what they print.

/// A row is a name, the points and cells of a mesh, the turns, a program, and the end with the numbers printed.
pub const RUNS: &str =
    "prints and arithmetic~4~0 1 2 3~1000~var width = 6; width = (width + 1) * -7 % 10; print width; print 7 / -2; print -7 % 2~done:-9 -3 -1
degrees~5~0 1 2 3/1 2 3 4~1000~field Deg : Vertex = 0; for (e <- edges(mesh)) { Deg(head(e)) += 1; Deg(tail(e)) += 1 } var s = 0; for (v <- vertices(mesh)) { s += Deg(v) * (ID(v) + 1) } print s~done:54
each reduction of a scalar~5~0 1 2 3/1 2 3 4~1000~var s = 0; var p = 1; var a = -1; var o = 0; var x = 0; var l = 99; var g = -99; for (e <- edges(mesh)) { s += ID(e); p *= ID(e) + 1; a &= ID(e) + 8; o |= ID(e); x ^= ID(e); l min= ID(e); g max= ID(e) } print s; print p; print a; print o; print x; print l; print g~done:36 362880 0 15 8 0 8
a scalar that is read beside one that is reduced~5~0 1 2 3/1 2 3 4~1000~var n = 3; var s = 10; for (c <- cells(mesh)) { s += n * ID(c) + n } print s; print n~done:19 3
a field declared again in each turn begins anew~5~0 1 2 3/1 2 3 4~1000~field Sum : Cell = 0; var i = 0; while (i < 3) { field B : Cell = i; for (c <- cells(mesh)) { B(c) += 10 } for (c <- cells(mesh)) { Sum(c) += B(c) } i += 1 } var s = 0; for (c <- cells(mesh)) { s += Sum(c) } print s~done:66
fields of one name in two scopes~5~0 1 2 3/1 2 3 4~1000~var s = 0; if (0 == 0) { field B : Cell = 5; for (c <- cells(mesh)) { s += B(c) } } if (0 == 1) { print 1 } else { field B : Cell = 7; for (c <- cells(mesh)) { s += B(c) } } print s~done:24
a field that an if does not declare keeps its values~5~0 1 2 3/1 2 3 4~1000~field A : Cell = 1; if (0 == 0) { field B : Cell = 5; for (c <- cells(mesh)) { B(c) = 9 } } field C : Cell = 2; for (c <- cells(mesh)) { C(c) = A(c) + 1 } var s = 0; for (c <- cells(mesh)) { s += A(c) * 10 + C(c) } print s~done:24
the last of several writes stays~4~0 1 2 3~1000~field T : Vertex = 0; for (e <- edges(mesh)) { T(head(e)) = ID(e) + 10 } var s = 0; for (v <- vertices(mesh)) { s += T(v) * (ID(v) + 1) } print s~done:119
the first of two traps of a comprehension~4~0 1 2 3~1000~print 8; field D : Vertex = 0; for (e <- edges(mesh)) { D(tail(e)) += 1 / ((ID(e) - 5) * (ID(e) - 1)) } print 9~ZeroDivide 1:73 edge 1:8
nil~4~0 1 2 3~1000~field N : Face = 7; for (f <- faces(mesh)) { N(f) = ID(outside(f)) }~NilElement 1:53 face 0:
overflow in the main program~4~0 1 2 3~1000~var a = 9223372036854775807; a += 1; print a; print a - 1~Overflow 1:55 main:-9223372036854775808
three turns suffice~4~0 1 2 3~3~var i = 0; while (i < 3) { i += 1 } print i~done:3
a fourth turn is not there~4~0 1 2 3~3~var i = 0; while (i < 4) { i += 1 } print i~Spent 1:12 main:
turns of an iteration are its own~5~0 1 2 3/1 2 3 4~3~var n = 0; for (c <- cells(mesh)) { var i = 0; while (i < 3) { i += 1 } n += i } var j = 0; while (j < 3) { j += 1 } print n + j~done:9
turns of an iteration end~5~0 1 2 3/1 2 3 4~3~print 5; for (c <- cells(mesh)) { var i = 0; while (i < 3 + ID(c)) { i += 1 } }~Spent 1:46 cell 1:5
nested loops of the main program share turns~4~0 1 2 3~6~var n = 0; var i = 0; while (i < 2) { var j = 0; while (j < 2) { j += 1; n += 10 } i += 1 } print n~done:40
a comprehension in a loop in a branch~5~0 1 2 3/1 2 3 4~1000~field A : Cell = 1; var i = 0; while (i < 4) { if (i % 2 == 0) { for (c <- cells(mesh)) { A(c) *= 3 } } else { for (c <- cells(mesh)) { A(c) -= ID(c) } } i += 1 } var s = 0; for (c <- cells(mesh)) { s += A(c) * (ID(c) + 1) } print s~done:19
one step of heat~5~0 1 2 3/1 2 3 4~1000~field T : Cell = 0; field Q : Face = 0; for (c <- cells(mesh)) { T(c) = ID(c) * 1000 } for (f <- faces(mesh)) { if (valid(outside(f))) { Q(f) = (T(inside(f)) - T(outside(f))) / 8 } } for (f <- faces(mesh)) { if (valid(outside(f))) { T(inside(f)) -= Q(f); T(outside(f)) += Q(f) } } var s = 0; for (c <- cells(mesh)) { s += T(c) * (ID(c) * 9 + 1) } print s~done:8875
cycles of faces~4~0 1 2 3~1000~field S : Edge = 0; for (f <- faces(mesh)) { for (d <- edges_ccw(f)) { if (ID(tail(d)) < ID(head(d))) { S(d) += 10 } else { S(d) += 1 } } } var l = 99; var g = 0; for (e <- edges(mesh)) { l min= S(e); g max= S(e) } print l; print g~done:11 11
no cells and no points~0~~1000~field A : Cell = 1; var n = 7; for (c <- cells(mesh)) { n min= ID(c); A(c) = 2 } print n~done:7
an empty program~4~0 1 2 3~1000~~done:";
