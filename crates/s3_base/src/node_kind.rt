/// What a node of the tree is: a directory, a regular file or a symbolic link.
#[derive(Clone, Copy, Debug, PartialEq, Eq)]
pub enum Kind {
    Directory,
    Regular,
    Link,
}
