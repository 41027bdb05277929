//! Worked cases of the grammar, programs with real places. Each is the contract of a function with an empty body.
#![allow(dead_code)]

ghost use Rattle.std.specs.Prelude.{◌≡◌, codes, map, Ok};
ghost use Rattle.liszt_lexer.specs.Lexer.{tokens_of};
ghost use Rattle.liszt_parser.specs.Cases.{lexeme_of};
ghost use Rattle.liszt_parser.specs.Grammar.{lexemes, Derives};
ghost use Rattle.liszt_parser.specs.Programs.{degree_text, degree_tokens, degree_tree, other_text, other_tokens, other_tree, every_words, every_tree};
ghost use Rattle.liszt_tree.specs.Canonical.{canonical};
ghost use Rattle.liszt_tree.specs.Tree.{Same, main_nodes};
ghost use Rattle.liszt_tree.specs.Trees.{degrees};

/// A field, and a comprehension that counts the edges of each vertex, with no `;` before its `}`.
fn degree_of_each_vertex()
    ensures tokens { tokens_of degree_text ≡ Ok degree_tokens }
    ensures tree { Derives (lexemes degree_text degree_tokens) degree_tree }
    ensures same { Same degree_tree degrees }
    ensures nodes { main_nodes degree_tree ≡ 11 }
{}

/// A product in a chain of sums, a prefix operator, a comparison beside `&&` and `!`, brackets that leave no node, and `min=`.
fn sums_and_tests()
    ensures tokens { tokens_of other_text ≡ Ok other_tokens }
    ensures tree { Derives (lexemes other_text other_tokens) other_tree }
    ensures nodes { main_nodes other_tree ≡ 21 }
    ensures canonical { canonical other_tree
        ≡ codes "var m = 1 + 2 * -3 - 4;\nwhile (m <= 9 && !(m == 8)) {\n  m min= m - 1;\n}\n" }
{}

/// Every other construct: blocks with and without `else`, an empty block, and each statement of a body.
fn every_construct()
    ensures tree { Derives (map lexeme_of every_words) every_tree }
    ensures nodes { main_nodes every_tree ≡ 53 }
    ensures canonical { canonical every_tree
        ≡ codes "var m = -1;\nfield F : Face = 0;\nif (m == 0) {\n  print m;\n} else {\n  m = 2;\n}\nfor (f <- faces(mesh)) {\n  val c = inside(f);\n  var n = 1;\n  if (valid(c) || n > 2) {\n    n -= 1;\n  } else {\n  }\n  while (n < 3) {\n    n *= 2;\n  }\n  for (e <- edges_ccw(f)) {\n    F(f) += ID(towards(e, head(e))) % 7;\n  }\n  if (F(f) != 0) {\n    F(f) = n;\n  }\n}\n" }
{}
