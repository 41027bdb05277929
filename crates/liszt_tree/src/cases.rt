//! Worked cases of the canonical text, computed by the checker. Each is the contract of a function with an empty body.
#![allow(dead_code)]

ghost use Rattle.std.specs.Prelude.{◌≡◌, codes};
ghost use Rattle.liszt_tree.specs.Canonical.{canonical, expression_text};
ghost use Rattle.liszt_tree.specs.Trees.{degrees, over_faces, choices, brackets, plain_chain, summed_sum, compared_comparison, compared_to_comparison, prefixes, either};

/// The program that counts the edges of each vertex, and one with nested blocks, some of them empty.
fn programs()
    ensures degrees { canonical degrees
        ≡ codes "field Deg : Vertex = 0;\nfor (e <- edges(mesh)) {\n  Deg(head(e)) += 1;\n  Deg(tail(e)) += 1;\n}\n" }
    ensures over_faces { canonical over_faces
        ≡ codes "var m = -1;\nfor (f <- faces(mesh)) {\n  var n = 1;\n  val c = inside(f);\n  if (valid(c)) {\n    F(c) -= n;\n  }\n  while (n < 3) {\n    n *= 2;\n  }\n  for (e <- edges_ccw(f)) {\n    n max= ID(tail(e));\n  }\n  n &= 7;\n  n |= 1;\n  n ^= 3;\n  n = 0;\n}\nif (m == 0) {\n}\n" }
    ensures choices { canonical choices
        ≡ codes "while (m < 3) {\n  if (m == 0) {\n  } else {\n    print m;\n  }\n  if (m == 1) {\n  } else {\n  }\n  m min= -1;\n}\n" }
{}

/// Brackets where a level requires them.
fn expressions()
    ensures brackets { expression_text brackets ≡ codes "-(a + 1) * (b - (c - 2)) < !(x && y)" }
    ensures summed_sum { expression_text summed_sum ≡ codes "(a + b) + c" }
    ensures compared_comparison { expression_text compared_comparison ≡ codes "(a < b) == c" }
    ensures compared_to_comparison { expression_text compared_to_comparison ≡ codes "a == (b < c)" }
    ensures prefixes { expression_text prefixes ≡ codes "!--x" }
    ensures either { expression_text either ≡ codes "a && (b || c) || d" }
    ensures chain { expression_text plain_chain ≡ codes "a - b - towards(e, v)" }
{}
