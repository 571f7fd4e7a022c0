// What a record answers.
ghost use Rattle.std.specs.Prelude.{◌≡◌};
ghost use Rattle.records.specs.Model.{RecordModel};

// A record: so many heads, so many polls, and for each head and poll a reading or none. Its model
// says which; outside its numbers there is none. What is a view (`Copy`) and has such a model is a record: who works on one
// keeps it whole, where of a borrowed one the numbers would be read again after every write.
pub trait Record: Copy {
    type Reading: Copy;

    ghost model: { Self → RecordModel Self.Reading };

    // The number of heads.
    fn heads(&self) -> u32
        ensures { result ≡ (model self.now).heads };

    // The number of polls.
    fn polls(&self) -> u32
        ensures { result ≡ (model self.now).polls };

    // The reading of the head at the poll, or none. Any two numbers may be asked, so they are no struct of their own.
    fn reading(&self, head: u32, poll: u32) -> Option<Self::Reading>
        ensures { result ≡ (model self.now).at head poll };
}
