// The classes of traffic.
ghost use Rattle.std.specs.Prelude.{Some as SomeT};
ghost use Rattle.legality.specs.Words.{class_word, Names};

use std::fmt;
use std::str::FromStr;

// Traffic is at home until its first step that is not to a provider, and outside after it.
#[derive(Clone, Copy, PartialEq, Eq, Debug)]
pub enum Class {
    Home,
    Outside,
}

impl fmt::Display for Class {
    ghost output = { λ class. SomeT (class_word class) };

    fn fmt<W: fmt::Write>(&self, f: &mut fmt::Formatter<W>) -> fmt::Result {
        f.write_str(match self {
            Class::Home => "home",
            Class::Outside => "outside",
        })
    }
}

// Why a word is read as no class.
#[derive(Clone, Copy, PartialEq, Eq, Debug)]
pub struct UnknownClass;

impl FromStr for Class {
    type Err = UnknownClass;

    ghost from_str_gives = { Names };

    fn from_str(word: &str) -> Result<Class, UnknownClass> {
        match word {
            "home" => Ok(Class::Home),
            "outside" => Ok(Class::Outside),
            _ => Err(UnknownClass),
        }
    }
}
