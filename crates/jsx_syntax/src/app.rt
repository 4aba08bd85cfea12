ghost use Rattle.std.specs.Prelude.{◌≡◌};
ghost use Rattle.jsx_syntax.specs.Rules.{IsApp};

use crate::file::File;
use std::marker::Model;

/// A file that meets the rules of the language beside its grammar. Contracts see it as the file.
#[derive(Debug, Drop)]
pub struct App {
    file: File,
}

impl Model for App {
    ghost use Rattle.jsx_syntax.specs.declared.file.File.{File};
    ghost use Rattle.jsx_syntax.specs.contracts.expr.Expr as expr;
    ghost use Rattle.jsx_syntax.specs.contracts.node.Node as node;
    ghost use Rattle.std.specs.Coded.{codes};

    ghost Value = { File };

    ghost coded = { Prim.hlevel (codes, expr.the_row.coded, node.the_row.coded) };

    ghost view = { λ app. app.file };

    ghost use Rattle.jsx_syntax.specs.Rules.{IsApp};

    ghost invariant = { λ app. ∥ IsApp app.file ∥₁ };
}

impl App {
    /// The file as an app.
    pub fn of(file: File) -> App
        requires { IsApp file }
        ensures { result ≡ file }
    {
        App { file }
    }

    /// The file, which meets the rules.
    pub fn file(&self) -> &File
        ensures same { result.now ≡ self.now }
        ensures app { IsApp result.now }
    {
        &self.file
    }
}
