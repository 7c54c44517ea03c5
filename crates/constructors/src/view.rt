// A program whose blocks lead to blocks.
ghost use Rattle.constructors.specs.Walks.{WalkInside};

use chains::Indexed;

#[derive(Clone, Copy)]
pub struct Flow<'a> {
    pub indexed: Indexed<'a>,
    pub ghost inside: { WalkInside indexed.program.words.now indexed.program.counts },
}
